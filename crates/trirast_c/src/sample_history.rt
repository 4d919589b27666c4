//! The history of a sample, in the caller's memory.
ghost use Rattle.std.specs.Prelude.{◌≡◌, ◌≢◌, OnOk, OnErr, ⊤};
ghost use Rattle.c_abi.specs.Calls.{IsCall, IsReport};
ghost use Rattle.trirast_c.specs.Texts.{IsFirstOfText};
ghost use Rattle.trirast_c.specs.History.{HoldsHistory, history_checks};

use crate::text::list_of;
use c_abi::{CallError, Error, Status, report};
use history_c::{HistoryRequest, SampleEvent, SampleInfo, write_events};
use std::alloc::Global;

/// Writes the events of a sample's history at the beginning of the array, in draw order, as many as it holds, and into
/// `info` how many there are in all, and what the sample begins and ends with. The array is unchanged behind the
/// events. After an error the array and `info` are unchanged.
fn write_history(
    alloc: Global,
    json: &[u8],
    request: &HistoryRequest,
    events: &mut [SampleEvent],
    info: &mut SampleInfo,
) -> Result<(), CallError>
    ensures written { OnOk result (HoldsHistory json.now request.now events.old events.new info.new) }
    ensures events { OnErr result (events.new ≡ events.old) }
    ensures info { OnErr result (info.new ≡ info.old) }
    ensures judged { IsCall (history_checks json.now request.now) (IsFirstOfText json.now) (λ done. ⊤) result }
{
    if !request.has_sizes() {
        return Err(CallError::from(Status::BadStructSize));
    }
    let list = list_of(alloc, json)?;
    request.check(&list)?;
    let (x, y, sample) = (request.x, request.y, request.sample);
    let (event_count, end) = write_events(&list, x, y, sample, request.is_all(), events);
    *info = SampleInfo::of(&list, request, event_count, end);
    Ok(())
}

/// Writes the events of a sample's history at the beginning of the array, in draw order, as many as it holds, and into
/// `info` how many there are in all, and what the sample begins and ends with. The array is unchanged behind the
/// events. Returns the status, and writes the error. If the status is not 0, nothing else is written.
#[unsafe(no_mangle)]
pub extern "C" fn trirast_proved_list_history(
    alloc: Global,
    json: &[u8],
    request: &HistoryRequest,
    events: &mut [SampleEvent],
    info: &mut SampleInfo,
    error: &mut Error,
) -> u32
    ensures written { result ≡ 0 → HoldsHistory json.now request.now events.old events.new info.new }
    ensures events { result ≢ 0 → events.new ≡ events.old }
    ensures info { result ≢ 0 → info.new ≡ info.old }
    ensures report { IsReport (history_checks json.now request.now) (IsFirstOfText json.now) result error.new }
{
    report(write_history(alloc, json, request, events, info), error)
}
