//! The words of a draw list in JSON, each with what it names.
ghost use Rattle.std.specs.Prelude.{◌≡◌, false, MatchOption};
ghost use Rattle.list_json.specs.Json.{is_among};
ghost use Rattle.list_json.specs.Keys.{cull_word, cull_words, depth_test_word, depth_test_words, NamesBlend, blend_words, output_word, output_words};

use draw_list::Output;
use grid::Cull;
use shade::{Blend, DepthTest};

/// The culling that a word names. Returns `None` if it is none of the words.
pub fn cull_named(word: &str) -> Option<Cull>
    ensures { MatchOption result (is_among cull_words word.now ≡ false) (λ cull. word.now ≡ cull_word cull) }
{
    match word {
        "none" => Some(Cull::None),
        "front" => Some(Cull::Front),
        "back" => Some(Cull::Back),
        _ => None,
    }
}

/// The depth test that a word names. Returns `None` if it is none of the words.
pub fn depth_test_named(word: &str) -> Option<DepthTest>
    ensures { MatchOption result (is_among depth_test_words word.now ≡ false) (λ test. word.now ≡
        depth_test_word test) }
{
    match word {
        "never" => Some(DepthTest::Never),
        "less" => Some(DepthTest::Less),
        "equal" => Some(DepthTest::Equal),
        "less_equal" => Some(DepthTest::LessEqual),
        "greater" => Some(DepthTest::Greater),
        "not_equal" => Some(DepthTest::NotEqual),
        "greater_equal" => Some(DepthTest::GreaterEqual),
        "always" => Some(DepthTest::Always),
        _ => None,
    }
}

/// The blending that a word names. Returns `None` if it is none of the words.
pub fn blend_named(word: &str) -> Option<Blend>
    ensures { MatchOption result (is_among blend_words word.now ≡ false) (λ blend. NamesBlend word.now blend) }
{
    match word {
        "none" => Some(Blend::NONE),
        "over" => Some(Blend::OVER),
        _ => None,
    }
}

/// The output that a word names. Returns `None` if it is none of the words.
pub fn output_named(word: &str) -> Option<Output>
    ensures { MatchOption result (is_among output_words word.now ≡ false) (λ output. word.now ≡ output_word output) }
{
    match word {
        "color" => Some(Output::Color),
        "depth" => Some(Output::Depth),
        _ => None,
    }
}
