//! The reasons of an event, and what its draw writes, as flags of one number.
ghost use Rattle.std.specs.Prelude.{◌≡◌, ◌≤◌};
ghost use Rattle.history_c.specs.Events.{flag as flag_of, fails_an_edge as fails_one, failure_of as failure, result_of as result_named, reasons_of as reasons_in, writes_of as writes_in};

use history::{EdgeReason, Event, Outcome, Reasons};
use list_history::ListEvent;

/// The value of a flag if it is set, and else 0.
pub(crate) fn flag(is_set: bool, value: u32) -> u32
    ensures value { result ≡ flag_of is_set value }
    ensures at_most { result ≤ value }
{
    if is_set { value } else { 0 }
}

/// Whether the sample fails the top-left rule at one of the edges.
fn fails_an_edge(reasons: &Reasons) -> bool
    ensures { result ≡ fails_one reasons.now }
{
    reasons.ab.reason.is_some() || reasons.bc.reason.is_some() || reasons.ca.reason.is_some()
}

/// The number of the way in which a sample fails the top-left rule at an edge.
pub(crate) fn failure_of(reason: Option<EdgeReason>) -> u32
    ensures { result ≡ failure reason }
{
    match reason {
        None => 0,
        Some(EdgeReason::Outside) => 1,
        Some(EdgeReason::OnUncoveredEdge) => 2,
    }
}

/// The number of a result.
pub(crate) fn result_of(outcome: Outcome) -> u32
    ensures { result ≡ result_named outcome }
{
    match outcome {
        Outcome::Missed => 0,
        Outcome::DepthFailed => 1,
        Outcome::Drawn => 2,
    }
}

/// The reasons that hold.
pub(crate) fn reasons_of(event: &Event) -> u32
    ensures { result ≡ reasons_in event.now }
{
    let reasons = &event.reasons;
    flag(reasons.culled, 1)
        + flag(reasons.zero_area, 2)
        + flag(fails_an_edge(reasons), 4)
        + flag(reasons.outside_scissor, 8)
        + flag(reasons.masked, 16)
        + flag(event.fails_depth, 32)
}

/// What the triangle's draw writes if the triangle is drawn.
pub(crate) fn writes_of(event: &ListEvent) -> u32
    ensures { result ≡ writes_in event.now }
{
    let [red, green, blue] = event.write;
    flag(red, 1) + flag(green, 2) + flag(blue, 4) + flag(event.depth_write, 8)
}
