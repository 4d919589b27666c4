ghost use Rattle.std.specs.Prelude.{◌≡◌, ◌≤◌, pos, Some, length, option_map, [], ◌∷◌};
ghost use Rattle.serde_json.specs.View.{view, items_view};
ghost use Rattle.grid.specs.declared.sample_count.SampleCount.TheVariants as count_of;
ghost use Rattle.list_json.specs.Beginning.{IsBeginning};
ghost use Rattle.checking_reader.specs.Answer.{Answers};
ghost use Rattle.list_json.specs.Checks.{where_there, size_checks, sample_count_checks, colour_checks, depth_checks, clear_checks, top_checks};
ghost use Rattle.list_json.specs.Denotes.{OrDefault, IsSize, IsSampleCount, IsClearColour, IsDepthNumber};

use crate::array::{array_of, check_length};
use crate::keys::check_keys;
use crate::number::{channel, depth, whole_number};
use crate::word::output;
use draw_list::{
    DEFAULT_CLEAR, DEFAULT_SAMPLE_COUNT, MOST_DRAWS, MOST_PIXELS, Output, ReadKind, Target,
};
use grid::SampleCount;
use serde_json::Value;
use shade::Sample;

/// The parts of the top object. Its draws are still JSON values.
#[derive(Drop)]
pub(crate) struct Header<'v> {
    pub target: Target,
    pub draws: &'v [Value],
}

/// The width or the height of a picture, in pixels.
fn size(value: Option<&Value>) -> Result<u32, ReadKind>
    ensures { let seen = option_map (λ v. view v.now) value.entry in
        Answers (size_checks seen) (IsSize seen) result }
{
    Ok(whole_number(value, 1, i64::from(MOST_PIXELS), ReadKind::OutOfRange)? as u32)
}

/// The number of samples of a pixel; the default if the key is absent.
fn sample_count(value: Option<&Value>) -> Result<SampleCount, ReadKind>
    ensures { let seen = option_map (λ v. view v.now) value.entry in
        Answers (where_there sample_count_checks seen) (OrDefault count_of.One IsSampleCount seen) result }
{
    if value.is_none() {
        return Ok(DEFAULT_SAMPLE_COUNT);
    }
    match whole_number(value, 1, 4, ReadKind::OutOfRange)? {
        1 => Ok(SampleCount::One),
        4 => Ok(SampleCount::Four),
        _ => Err(ReadKind::OutOfRange),
    }
}

/// The colour that each sample begins with, apart from the default depth; the default if the key is absent.
fn clear_colour(value: Option<&Value>) -> Result<Sample, ReadKind>
    ensures { let seen = option_map (λ v. view v.now) value.entry in
        Answers (where_there colour_checks seen)
        (λ found. OrDefault (0 ∷ 0 ∷ 0 ∷ []) IsClearColour seen (found.r ∷ found.g ∷ found.b ∷ [])) result }
{
    let Some(value) = value else {
        return Ok(DEFAULT_CLEAR);
    };
    check_length(value, 3)?;
    Ok(Sample {
        r: channel(value.get(0usize))?,
        g: channel(value.get(1usize))?,
        b: channel(value.get(2usize))?,
        z: DEFAULT_CLEAR.z,
    })
}

/// The depth that each sample begins with; the default if the key is absent.
fn clear_depth(value: Option<&Value>) -> Result<u16, ReadKind>
    ensures { let seen = option_map (λ v. view v.now) value.entry in
        Answers (where_there depth_checks seen) (OrDefault 65535 IsDepthNumber seen) result }
{
    if value.is_none() {
        return Ok(DEFAULT_CLEAR.z);
    }
    depth(value)
}

/// The number of samples of a pixel, what each begins with, and what the picture shows.
#[tactic(auto, using(checks::proofs::Faults::first_fault_of_both), unfolding(list_json::specs::Checks::clear_checks))]
fn beginning(value: &Value) -> Result<(SampleCount, Sample, Output), ReadKind>
    ensures { Answers (clear_checks (view value.now)) (λ found. IsBeginning (view value.now) found.0 found.1 found.2)
        result }
{
    let count = sample_count(value.get("samples"))?;
    let colour = clear_colour(value.get("clear"))?;
    let z = clear_depth(value.get("clear_depth"))?;
    let output = output(value.get("output"))?;
    let (r, g, b) = (colour.r, colour.g, colour.b);
    Ok((count, Sample { r, g, b, z }, output))
}

impl<'v> Header<'v> {
    ghost use Rattle.checking_reader.specs.Header.{IsHeader};

    /// The parts of the top object, or the first fault of it outside of its draws.
    #[tactic(auto, using(checks::proofs::Faults::first_fault_of_both), unfolding(list_json::specs::Checks::top_checks))]
    pub(crate) fn read(value: &'v Value) -> Result<Header<'v>, ReadKind>
        ensures { Answers (top_checks (view value.now)) (IsHeader (view value.now)) result }
    {
        check_keys(
            value,
            &[
                "width",
                "height",
                "samples",
                "clear",
                "clear_depth",
                "output",
                "draws",
            ],
        )?;
        if value.get("width").is_none() || value.get("height").is_none() {
            return Err(ReadKind::MissingKey);
        }
        let Some(draw_array) = value.get("draws") else {
            return Err(ReadKind::MissingKey);
        };
        let width = size(value.get("width"))?;
        let height = size(value.get("height"))?;
        let (count, clear, output) = beginning(value)?;
        let draws = array_of(draw_array, MOST_DRAWS)?;
        let target = Target {
            width,
            height,
            count,
            clear,
            output,
        };
        Ok(Header { target, draws })
    }
}
