ghost use Rattle.std.specs.Prelude.{◌≡◌, ◌≢◌, ◌<◌, ◌↔◌, IsTrue, OnOk, ⊤};
ghost use Rattle.grid.specs.Samples.{count_of};
ghost use Rattle.checks.specs.Checking.{IsJudged};
ghost use Rattle.history_c.specs.History.{HasSizes, HasRequestedPixel, HasRequestedSample, place_checks};

use crate::event::SampleEvent;
use crate::sample_info::SampleInfo;
use c_abi::{Status, is_own_size};
use draw_list::DrawList;

/// The sizes in bytes of the structs.
const REQUEST_SIZE: u32 = size_of::<HistoryRequest>() as u32;

const EVENT_SIZE: u32 = size_of::<SampleEvent>() as u32;

const INFO_SIZE: u32 = size_of::<SampleInfo>() as u32;

/// The sample whose history is asked for, laid out as in C.
#[repr(C)]
#[derive(Clone, Copy, Debug, PartialEq, Eq)]
pub struct HistoryRequest {
    /// The bytes of this struct, as the caller has it, or 0.
    pub struct_size: u32,
    /// The bytes of a `SampleEvent`, as the caller has it, or 0.
    pub event_size: u32,
    /// The bytes of a `SampleInfo`, as the caller has it, or 0.
    pub info_size: u32,
    /// The column of the pixel.
    pub x: u32,
    /// The row of the pixel.
    pub y: u32,
    /// The index of the sample in the pixel.
    pub sample: u32,
    /// 0 if events of triangles that do not cover the sample are left out.
    pub all: u32,
}

impl HistoryRequest {
    /// Whether the structs have the sizes that this library knows.
    pub fn has_sizes(&self) -> bool
        ensures { IsTrue result ↔ HasSizes self.now }
    {
        is_own_size(self.struct_size, REQUEST_SIZE)
            && is_own_size(self.event_size, EVENT_SIZE)
            && is_own_size(self.info_size, INFO_SIZE)
    }

    /// Whether events of all triangles are asked for.
    pub fn is_all(&self) -> bool
        ensures { IsTrue result ↔ (self.now.all ≢ 0) }
    {
        self.all != 0
    }

    /// Whether the picture has the pixel.
    fn has_pixel(&self, list: &DrawList) -> bool
        ensures has { IsTrue result ↔ HasRequestedPixel list.now self.now }
        ensures screen { IsTrue result → (self.now.x < 4096) × (self.now.y < 4096) }
    {
        self.x < list.width() && self.y < list.height()
    }

    /// Fails with `BadPixel` if the picture has no such pixel, else with `BadSample` if the pixel has no such sample.
    pub fn check(&self, list: &DrawList) -> Result<(), Status>
        ensures judged { IsJudged (place_checks list.now self.now) (λ done. ⊤) result }
        ensures screen { OnOk result ((self.now.x < 4096) × (self.now.y < 4096)) }
    {
        if !self.has_pixel(list) {
            return Err(Status::BadPixel);
        }
        if self.sample >= list.count().count() {
            return Err(Status::BadSample);
        }
        Ok(())
    }
}
