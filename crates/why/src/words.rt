//! The names in the JSON form of a history.
ghost use Rattle.std.specs.Prelude.{◌≡◌, ◌↔◌, ◌⊎◌, IsTrue, IsSome};

use history::{Event, Outcome, Reasons};

/// The name of a result.
pub(crate) fn result_name(outcome: Outcome) -> &'static str {
    match outcome {
        Outcome::Missed => "missed",
        Outcome::DepthFailed => "depth_failed",
        Outcome::Drawn => "drawn",
    }
}

/// Whether the sample fails the top-left rule at one of the edges.
pub(crate) fn fails_an_edge(reasons: &Reasons) -> bool
    ensures { IsTrue result ↔ (IsSome reasons.now.ab.reason ⊎ IsSome reasons.now.bc.reason ⊎
        IsSome reasons.now.ca.reason) }
{
    reasons.ab.reason.is_some() || reasons.bc.reason.is_some() || reasons.ca.reason.is_some()
}

/// The names of reasons, and whether each of them holds, in the order in which they are written.
pub(crate) fn named_reasons(event: &Event) -> [(&'static str, bool); 6] {
    let reasons = &event.reasons;
    [
        ("culled", reasons.culled),
        ("zero_area", reasons.zero_area),
        ("not_covered", fails_an_edge(reasons)),
        ("outside_scissor", reasons.outside_scissor),
        ("masked", reasons.masked),
        ("depth_failed", event.fails_depth),
    ]
}
