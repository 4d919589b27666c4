ghost use Rattle.std.specs.Prelude.{◌≡◌, ◌≢◌, ◌≤◌, ◌⊎◌, ℕ, ◌+◌, length, map, sum_by, Some, None, IfOk, IfErr, MatchResult};
ghost use Rattle.serde_json.specs.View.{view, items_view};
ghost use Rattle.draw_list.specs.declared.fault.ReadKind.TheVariants.{NotJson, OutOfMemory};
ghost use Rattle.serde_json.specs.Errors.{IsMemory};
ghost use Rattle.list_json.specs.Json.{json_of};
ghost use Rattle.checking_reader.specs.Answer.{ReadsAll};
ghost use Rattle.checks.specs.FirstFault.{IsFirstFault, first_fault};
ghost use Rattle.draw_list.specs.Primitives.{primitive_listing, count_of_triangles};
ghost use Rattle.draw_list.specs.Listing.{draw_listing};
ghost use Rattle.draw_list.specs.Scene.{Scene};
ghost use Rattle.draw_list.specs.Fault.{outside};
ghost use Rattle.list_json.specs.Checks.{draw_value_checks, checks_before_vertices, numbered_draw_checks, value_checks, all_checks, IsDrawReached, Reaches};
ghost use Rattle.list_json.specs.Denotes.{Each, IsDraw, IsDrawList, Denotes};

use crate::draw::read_draw;
use crate::header::Header;
use draw_list::{Draw, DrawList, MOST_BYTES, MOST_TRIANGLES, ReadFault, ReadKind, picture_box};
use grid::PixelBox;
use serde_json::{Error, Value};
use std::alloc::Global;

/// The draw of this number, before which the draws have `earlier` triangles.
fn numbered_draw(
    alloc: Global,
    value: &Value,
    number: u32,
    picture: PixelBox,
    earlier: usize,
) -> Result<Draw, ReadFault>
    requires { earlier ≤ MOST_TRIANGLES }
    ensures reported { let checks = draw_value_checks earlier (view value.now) in MatchResult result
        (λ d. (first_fault checks ≡ None) × IsDraw picture (view value.now) (draw_listing d))
        (λ fault. fault.kind ≢ OutOfMemory → first_fault checks ≡ Some fault.kind) }
    ensures named { IfErr result (λ fault. fault.draw ≡ Some number) }
    ensures memory { IfErr result (λ fault. fault.kind ≡ OutOfMemory
        → first_fault (checks_before_vertices (view value.now)) ≡ None) }
    ensures room { IfOk result (λ d. earlier + count_of_triangles (primitive_listing d.primitives) ≤ MOST_TRIANGLES) }
{
    read_draw(alloc, value, picture, earlier).map_err(|kind| ReadFault::in_draw(kind, number))
}

/// The draws on a picture of these pixels. Each fault names its draw.
fn draws_of(alloc: Global, list: &[Value], picture: PixelBox) -> Result<Vec<Draw>, ReadFault>
    requires { length list.now ≤ 1024 }
    ensures reported { let items = items_view list.now in ReadsAll (numbered_draw_checks 0 0 items)
        (λ found. let draws = map draw_listing found.items in
        Each (IsDraw picture) items draws ×
        (sum_by (λ d. count_of_triangles d.primitives) draws ≤ MOST_TRIANGLES)) result }
    ensures reached { IfErr result (λ fault. (n : ℕ) × (fault.draw ≡ Some n) ×
        IsDrawReached (items_view list.now) fault.kind n) }
{
    let mut found = Vec::new(alloc);
    let mut earlier = 0;
    for (number, value) in list.iter().enumerate() {
        let next = numbered_draw(alloc, value, number as u32, picture, earlier)?;
        earlier += next.primitives.triangles();
        if found.push(next).is_err() {
            return Err(ReadFault::in_draw(ReadKind::OutOfMemory, number as u32));
        }
    }
    Ok(found)
}

/// The draw list that a value denotes, or the first fault of it.
#[tactic(auto, using(checks::proofs::Faults::first_fault_of_both, checks::proofs::Faults::first_fault_reported_as, crate::proofs::Memory::top_never))]
fn read_value(alloc: Global, value: &Value) -> Result<DrawList, ReadFault>
    ensures reported { ReadsAll (value_checks (view value.now)) (IsDrawList (view value.now)) result }
    ensures reached { IfErr result (Reaches (Some (view value.now))) }
    // `OutOfMemory` names no draw only after the last.
    ensures after_all { IfErr result (λ fault. fault ≡ outside OutOfMemory →
        first_fault (value_checks (view value.now)) ≡ None) }
{
    let header = Header::read(value)?;
    let picture = picture_box(header.target.width, header.target.height);
    let draws = draws_of(alloc, header.draws, picture)?;
    Ok(DrawList::within_limits(alloc, header.target, draws)?)
}

/// The error if `serde_json` gives no value.
fn kind_of(error: &Error) -> ReadKind
    ensures { (IsMemory error.now × (result ≡ OutOfMemory)) ⊎ ((¬ IsMemory error.now) × (result ≡ NotJson)) }
{
    if error.is_memory() {
        ReadKind::OutOfMemory
    } else {
        ReadKind::NotJson
    }
}

/// Reads a draw list from JSON through `serde_json`'s tree of values, and returns the faults that `read` returns.
pub fn read_by_value(alloc: Global, bytes: &[u8]) -> Result<DrawList, ReadFault>
    requires { length bytes.now ≤ MOST_BYTES }
    ensures ok { IfOk result (Denotes bytes.now) }
    ensures only { (list : Scene) → Denotes bytes.now list
        → MatchResult result (λ found. found ≡ list) (λ fault. fault.kind ≡ OutOfMemory) }
    ensures first { IfErr result (λ fault. fault.kind ≢ OutOfMemory
        → IsFirstFault (all_checks (json_of bytes.now)) fault) }
    ensures reached { IfErr result (Reaches (json_of bytes.now)) }
{
    let value = match Value::from_slice(alloc, bytes) {
        Ok(value) => value,
        Err(error) => return Err(ReadFault::outside(kind_of(&error))),
    };
    read_value(alloc, &value)
}
