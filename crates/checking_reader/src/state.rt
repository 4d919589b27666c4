ghost use Rattle.std.specs.Prelude.{◌≡◌, pos, option_map, true, false, [], ◌∷◌};
ghost use Rattle.serde_json.specs.View.{view};
ghost use Rattle.checking_reader.specs.Answer.{Answers};
ghost use Rattle.list_json.specs.Checks.{where_there, truth_checks, write_mask_checks, sample_mask_checks, scissor_side_checks, scissor_checks, merge_checks, state_value_checks};
ghost use Rattle.list_json.specs.Denotes.{OrDefault, IsTruth, IsWriteMask, IsSampleMaskNumber, IsScissorSide, IsScissor, IsMerge, IsState};

use crate::array::check_length;
use crate::number::whole_number;
use crate::word::{blend, cull, depth_test};
use draw_list::{ALL_SAMPLES, DEFAULT_STATE, MOST_PIXELS, ReadKind};
use grid::PixelBox;
use serde_json::Value;
use shade::{Merge, State};

fn truth(value: Option<&Value>) -> Result<bool, ReadKind>
    ensures { let seen = option_map (λ v. view v.now) value.entry in
        Answers (truth_checks seen) (IsTruth seen) result }
{
    match value.and_then(Value::as_bool) {
        Some(truth) => Ok(truth),
        None => Err(ReadKind::WrongKind),
    }
}

/// Whether a draw stores depths; the default if the key is absent.
fn depth_write(value: Option<&Value>) -> Result<bool, ReadKind>
    ensures { let seen = option_map (λ v. view v.now) value.entry in
        Answers (where_there truth_checks seen) (OrDefault false IsTruth seen) result }
{
    if value.is_none() {
        return Ok(DEFAULT_STATE.merge.depth_write);
    }
    truth(value)
}

/// Which of red, green and blue a draw writes; the default if the key is absent.
fn write_mask(value: Option<&Value>) -> Result<[bool; 3], ReadKind>
    ensures { let seen = option_map (λ v. view v.now) value.entry in
        Answers (where_there write_mask_checks seen) (OrDefault (true ∷ true ∷ true ∷ []) IsWriteMask seen) result }
{
    let Some(value) = value else {
        return Ok(DEFAULT_STATE.merge.write);
    };
    check_length(value, 3)?;
    Ok([
        truth(value.get(0usize))?,
        truth(value.get(1usize))?,
        truth(value.get(2usize))?,
    ])
}

/// Which samples a draw writes, bit s for sample s; the default if the key is absent. The number stays as it is read,
/// also with one sample, of which only bit 0 counts.
fn sample_mask(value: Option<&Value>) -> Result<u16, ReadKind>
    ensures { let seen = option_map (λ v. view v.now) value.entry in
        Answers (where_there sample_mask_checks seen) (OrDefault 15 IsSampleMaskNumber seen) result }
{
    if value.is_none() {
        return Ok(DEFAULT_STATE.sample_mask);
    }
    Ok(whole_number(value, 0, i64::from(ALL_SAMPLES), ReadKind::OutOfRange)? as u16)
}

/// A side of a scissor, in pixels.
fn scissor_side(value: Option<&Value>) -> Result<i32, ReadKind>
    ensures { let seen = option_map (λ v. view v.now) value.entry in
        Answers (scissor_side_checks seen) (IsScissorSide seen) result }
{
    Ok(whole_number(value, 0, i64::from(MOST_PIXELS), ReadKind::OutOfRange)? as i32)
}

/// The scissor of a draw; all pixels of the picture if the key is absent. It may reach past the picture, and be empty.
fn scissor(value: Option<&Value>, picture: PixelBox) -> Result<PixelBox, ReadKind>
    ensures { let seen = option_map (λ v. view v.now) value.entry in
        Answers (where_there scissor_checks seen) (OrDefault picture IsScissor seen) result }
{
    let Some(value) = value else {
        return Ok(picture);
    };
    check_length(value, 4)?;
    Ok(PixelBox {
        x0: scissor_side(value.get(0usize))?,
        y0: scissor_side(value.get(1usize))?,
        x1: scissor_side(value.get(2usize))?,
        y1: scissor_side(value.get(3usize))?,
    })
}

/// How a draw's fragments are merged with what is stored.
#[tactic(auto, using(checks::proofs::Faults::first_fault_of_both), unfolding(list_json::specs::Checks::merge_checks))]
fn merge(value: &Value) -> Result<Merge, ReadKind>
    ensures { Answers (merge_checks (view value.now)) (IsMerge (view value.now)) result }
{
    let test = depth_test(value.get("depth_test"))?;
    let depth_write = depth_write(value.get("depth_write"))?;
    let blend = blend(value.get("blend"))?;
    let write = write_mask(value.get("write"))?;
    Ok(Merge {
        test,
        depth_write,
        write,
        blend,
    })
}

/// The state of a draw on a picture of these pixels.
#[tactic(auto, using(checks::proofs::Faults::first_fault_of_both), unfolding(list_json::specs::Checks::state_value_checks))]
pub(crate) fn read_state(value: &Value, picture: PixelBox) -> Result<State, ReadKind>
    ensures { Answers (state_value_checks (view value.now)) (IsState picture (view value.now)) result }
{
    let cull = cull(value.get("cull"))?;
    let merge = merge(value)?;
    let sample_mask = sample_mask(value.get("sample_mask"))?;
    let scissor = scissor(value.get("scissor"), picture)?;
    Ok(State {
        merge,
        cull,
        sample_mask,
        scissor,
    })
}
