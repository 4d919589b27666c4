//! What a picture is before anything is drawn on it.
ghost use Rattle.std.specs.Prelude.{◌≡◌, ◌<◌, ◌^◌};
ghost use Rattle.draw_list.specs.Picture.{picture_box as box_of_picture};

use crate::output::Output;
use grid::{PixelBox, SampleCount};
use shade::Sample;

/// What draws are drawn on: the size, the samples and the clear values of a picture, and what it shows.
#[derive(Clone, Copy, Debug, PartialEq, Eq)]
pub struct Target {
    /// The width, in pixels.
    pub width: u32,
    /// The height, in pixels.
    pub height: u32,
    /// The number of samples of a pixel.
    pub count: SampleCount,
    /// The colour and depth that each sample begins with.
    pub clear: Sample,
    /// What the picture shows.
    pub output: Output,
}

/// All pixels of a picture of this size.
pub fn picture_box(width: u32, height: u32) -> PixelBox
    requires width { width < 2 ^ 31 }
    requires height { height < 2 ^ 31 }
    ensures { result ≡ box_of_picture width height }
{
    PixelBox {
        x0: 0,
        y0: 0,
        x1: width as i32,
        y1: height as i32,
    }
}
