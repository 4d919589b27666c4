//! The draw list that the caller gives.
ghost use Rattle.std.specs.Prelude.{◌≡◌, IfOk};
ghost use Rattle.checks.specs.Checking.{done};
ghost use Rattle.list_json.specs.Denotes.{Denotes};
ghost use Rattle.draw_list.specs.Scene.{Scene};
ghost use Rattle.c_abi.specs.Calls.{IsCall};
ghost use Rattle.trirast_c.specs.Texts.{IsFirstOfText, text_checks};

use c_abi::{CallError, Status};
use list::{DrawList, MOST_BYTES, read};
use std::alloc::Global;

/// Reads the list that the bytes denote.
pub(crate) fn list_of(alloc: Global, json: &[u8]) -> Result<DrawList, CallError>
    ensures judged { IsCall (text_checks json.now done) (IsFirstOfText json.now) (Denotes json.now) result }
    ensures only { (list : Scene) → Denotes json.now list → IfOk result (λ found. found ≡ list) }
{
    if json.len() > MOST_BYTES {
        return Err(CallError::from(Status::InputTooLong));
    }
    Ok(read(alloc, json)?)
}
