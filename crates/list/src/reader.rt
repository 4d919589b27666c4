ghost use Rattle.std.specs.Prelude.{◌≡◌, ◌≢◌, ◌≤◌, length, IfOk, IfErr, MatchResult};
ghost use Rattle.draw_list.specs.declared.fault.ReadKind.TheVariants.{OutOfMemory};
ghost use Rattle.list_json.specs.Json.{json_of};
ghost use Rattle.checks.specs.FirstFault.{IsFirstFault, AllPass};
ghost use Rattle.draw_list.specs.Scene.{Scene};
ghost use Rattle.list_json.specs.Checks.{all_checks, Reaches};
ghost use Rattle.list_json.specs.Denotes.{Denotes};

use checking_reader::read_by_value;
use draw_list::{DrawList, ReadFault};
use fast_reader::read_in_one_pass;
use std::alloc::Global;

/// Reads a draw list from JSON (RFC 8259, as `serde_json` reads it; the keys, ranges and defaults are this project's
/// format).
///
/// Returns the first check that fails as the error, in this order. Whether the bytes are JSON. The top object: its
/// kind, a key that it should not have, a key that it lacks, then `width`, `height`, `samples`, `clear`, `clear_depth`,
/// `output` and `draws`. Each draw in turn: its kind, a key that it should not have, a key that it lacks, a second list
/// of primitives, then `cull`, `depth_test`, `depth_write`, `blend`, `write`, `sample_mask`, `scissor`, `vertices`, and
/// `triangles`, `strip` or `quads`. The kind of a value comes before its range, the number of elements before the
/// elements, the indices of a quad before its shape. A fault of a draw names the draw's number.
///
/// `OutOfMemory` is returned as soon as an allocation fails; later checks are not made. It names the draw that was
/// being read, of which no check before its vertices fails. Before the first draw and after the last it names none.
/// Nothing of the bytes is kept.
pub fn read(alloc: Global, bytes: &[u8]) -> Result<DrawList, ReadFault>
    requires { length bytes.now ≤ 67_108_864 }
    // What is read is denoted.
    ensures ok { IfOk result (Denotes bytes.now) }
    // If the bytes denote a list, that very list is read, or memory ran out.
    ensures only { (list : Scene) → Denotes bytes.now list
        → MatchResult result (λ found. found ≡ list) (λ fault. fault.kind ≡ OutOfMemory) }
    // A fault is the first one, unless memory ran out.
    ensures first { IfErr result (λ fault. fault.kind ≢ OutOfMemory
        → IsFirstFault (all_checks (json_of bytes.now)) fault) }
    // Out of memory too names a draw only if all before that draw is right, and all of it before its vertices.
    ensures reached { IfErr result (Reaches (json_of bytes.now)) }
    // Bytes that denote a list fail no check.
    ensures passed { (list : Scene) → Denotes bytes.now list → AllPass (all_checks (json_of bytes.now)) }
{
    if let Some(list) = read_in_one_pass(alloc, bytes) {
        return Ok(list);
    }
    read_by_value(alloc, bytes)
}
