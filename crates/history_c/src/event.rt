ghost use Rattle.std.specs.Prelude.{◌≡◌};
ghost use Rattle.history_c.specs.Events.{event_of};

use crate::flags::{failure_of, flag, reasons_of, result_of, writes_of};
use crate::stored::{Fragment, StoredSample};
use list_history::ListEvent;

/// What a triangle of a draw list did to a sample, and why, laid out as in C.
#[repr(C)]
#[derive(Clone, Copy, Debug, PartialEq, Eq)]
pub struct SampleEvent {
    /// Twice the triangle's area in 1/65536 square pixel, positive if its vertices run clockwise on the screen.
    pub doubled_area: i64,
    /// The edge function at the sample of the edge from the first to the second vertex, in 1/65536 square pixel.
    pub edge_ab: i64,
    /// That of the edge from the second to the third vertex.
    pub edge_bc: i64,
    /// That of the edge from the third to the first vertex.
    pub edge_ca: i64,
    /// The triangle's number in draw order, from 0.
    pub number: usize,
    /// Its draw, from 0.
    pub draw: usize,
    /// Its number in the draw, from 0.
    pub triangle: usize,
    /// How the sample fails the top-left rule at the edge from the first to the second vertex: 0 not at all, 1 outside,
    /// 2 on an edge that is neither top nor left.
    pub failure_ab: u32,
    /// Which it is at the edge from the second to the third vertex.
    pub failure_bc: u32,
    /// Which it is at the edge from the third to the first vertex.
    pub failure_ca: u32,
    /// What the triangle did: 0 missed, 1 depth failed, 2 drawn.
    pub result: u32,
    /// The reasons that hold: 1 culled, 2 zero area, 4 not covered, 8 outside of the scissor, 16 masked, 32 depth
    /// failed, added.
    pub reasons: u32,
    /// What its draw writes: 1 red, 2 green, 4 blue, 8 depth, added.
    pub writes: u32,
    /// 1 if the triangle covers the sample, else 0.
    pub covered: u32,
    /// The fragment at the sample. All zeros if the triangle does not cover the sample.
    pub fragment: Fragment,
    /// The sample before the triangle.
    pub before: StoredSample,
    /// The sample after the triangle.
    pub after: StoredSample,
}

impl SampleEvent {
    /// The event as C has it.
    pub(crate) fn of(event: &ListEvent) -> SampleEvent
        ensures { result ≡ event_of event.now }
    {
        let what = &event.event;
        let why = &what.reasons;
        SampleEvent {
            doubled_area: why.area2,
            edge_ab: why.ab.value,
            edge_bc: why.bc.value,
            edge_ca: why.ca.value,
            number: event.number,
            draw: event.place.draw,
            triangle: event.place.triangle,
            failure_ab: failure_of(why.ab.reason),
            failure_bc: failure_of(why.bc.reason),
            failure_ca: failure_of(why.ca.reason),
            result: result_of(what.outcome),
            reasons: reasons_of(what),
            writes: writes_of(event),
            covered: flag(what.fragment.is_some(), 1),
            fragment: Fragment::of(what.fragment),
            before: StoredSample::of(what.before),
            after: StoredSample::of(what.after),
        }
    }
}
