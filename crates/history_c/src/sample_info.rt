ghost use Rattle.std.specs.Prelude.{◌≡◌, ◌<◌};
ghost use Rattle.history_c.specs.History.{HasRequestedSample, IsSampleInfo, output_number};

use crate::request::HistoryRequest;
use crate::stored::StoredSample;
use draw_list::{DrawList, Output};
use grid::sample_at;
use shade::Sample;

/// A sample beside its events, laid out as in C.
#[repr(C)]
#[derive(Clone, Copy, Debug, PartialEq, Eq)]
pub struct SampleInfo {
    /// The number of events that were asked for, of which the caller's array may hold the first ones alone.
    pub event_count: usize,
    /// The number of samples of a pixel: 1 or 4.
    pub samples: u32,
    /// What the picture shows: 0 colours, 1 depths.
    pub output: u32,
    /// Where the sample lies: to the right, in 1/256 pixel.
    pub x: i32,
    /// Downwards, in 1/256 pixel.
    pub y: i32,
    /// The sample before all triangles.
    pub begin: StoredSample,
    /// The sample after all triangles.
    pub end: StoredSample,
}

impl SampleInfo {
    /// The sample whose history has this number of events, and which ends as `end`.
    pub fn of(
        list: &DrawList,
        request: &HistoryRequest,
        event_count: usize,
        end: Sample,
    ) -> SampleInfo
        requires column { request.now.x < 4096 }
        requires row { request.now.y < 4096 }
        requires sample { HasRequestedSample list.now request.now }
        ensures { IsSampleInfo list.now request.now event_count end result }
    {
        let count = list.count();
        let position = sample_at(request.x, request.y, request.sample, count);
        SampleInfo {
            event_count,
            samples: count.count(),
            output: number_of(list.output()),
            x: position.x(),
            y: position.y(),
            begin: StoredSample::of(list.clear()),
            end: StoredSample::of(end),
        }
    }
}

/// The number of what a picture shows.
fn number_of(output: Output) -> u32
    ensures { result ≡ output_number output }
{
    match output {
        Output::Color => 0,
        Output::Depth => 1,
    }
}
