ghost use Rattle.std.specs.Prelude.{◌≡◌, Some, None, option_map, MatchResult};
ghost use Rattle.serde_json.specs.View.{view};
ghost use Rattle.grid.specs.declared.cull.Cull.TheVariants as cull_of;
ghost use Rattle.shade.specs.declared.depth.DepthTest.TheVariants as test_of;
ghost use Rattle.shade.specs.Presets.{none_blend};
ghost use Rattle.draw_list.specs.declared.fault.ReadKind.TheVariants.{WrongKind};
ghost use Rattle.draw_list.specs.declared.output.Output.TheVariants as output_of;
ghost use Rattle.list_json.specs.Json.{text};
ghost use Rattle.list_json.specs.Keys.{output_words, cull_words, depth_test_words, blend_words};
ghost use Rattle.checking_reader.specs.Answer.{Answers};
ghost use Rattle.list_json.specs.Checks.{where_there, word_checks};
ghost use Rattle.list_json.specs.Denotes.{OrDefault, IsOutput, IsCull, IsDepthTest, IsBlend};

use draw_list::{DEFAULT_OUTPUT, DEFAULT_STATE, Output, ReadKind};
use grid::Cull;
use list_json::{blend_named, cull_named, depth_test_named, output_named};
use serde_json::Value;
use shade::{Blend, DepthTest};

/// The string that a value is.
fn word(value: &Value) -> Result<&str, ReadKind>
    ensures { let seen = text (Some (view value.now)) in
        MatchResult result (λ word. seen ≡ Some word.now) (λ kind. (kind ≡ WrongKind) × (seen ≡ None)) }
{
    value.as_str().ok_or(ReadKind::WrongKind)
}

/// What the picture shows; the default if the key is absent.
pub(crate) fn output(value: Option<&Value>) -> Result<Output, ReadKind>
    ensures { let seen = option_map (λ v. view v.now) value.entry in
        Answers (where_there (word_checks output_words) seen) (OrDefault output_of.Color IsOutput seen) result }
{
    let Some(value) = value else {
        return Ok(DEFAULT_OUTPUT);
    };
    output_named(word(value)?).ok_or(ReadKind::OutOfRange)
}

/// The culling of a draw; the default if the key is absent.
pub(crate) fn cull(value: Option<&Value>) -> Result<Cull, ReadKind>
    ensures { let seen = option_map (λ v. view v.now) value.entry in
        Answers (where_there (word_checks cull_words) seen) (OrDefault cull_of.None IsCull seen) result }
{
    let Some(value) = value else {
        return Ok(DEFAULT_STATE.cull);
    };
    cull_named(word(value)?).ok_or(ReadKind::OutOfRange)
}

/// The depth test of a draw; the default if the key is absent.
pub(crate) fn depth_test(value: Option<&Value>) -> Result<DepthTest, ReadKind>
    ensures { let seen = option_map (λ v. view v.now) value.entry in
        Answers (where_there (word_checks depth_test_words) seen) (OrDefault test_of.Always IsDepthTest seen) result }
{
    let Some(value) = value else {
        return Ok(DEFAULT_STATE.merge.test);
    };
    depth_test_named(word(value)?).ok_or(ReadKind::OutOfRange)
}

/// How a draw is blended; the default if the key is absent.
pub(crate) fn blend(value: Option<&Value>) -> Result<Blend, ReadKind>
    ensures { let seen = option_map (λ v. view v.now) value.entry in
        Answers (where_there (word_checks blend_words) seen) (OrDefault none_blend IsBlend seen) result }
{
    let Some(value) = value else {
        return Ok(DEFAULT_STATE.merge.blend);
    };
    blend_named(word(value)?).ok_or(ReadKind::OutOfRange)
}
