//! What stands for a key that a draw list leaves out.
ghost use Rattle.std.specs.Prelude.{◌≡◌};
ghost use Rattle.draw_list.specs.Defaults.{default_state as state_by_default};

use crate::limits::{ALL_SAMPLES, MOST_PIXELS};
use crate::output::Output;
use grid::{Cull, PixelBox, SampleCount};
use shade::{Blend, DepthTest, Merge, Sample, State};

/// The number of samples of a pixel.
pub const DEFAULT_SAMPLE_COUNT: SampleCount = SampleCount::One;

/// The colour and depth that each sample begins with: black, and the greatest depth.
pub const DEFAULT_CLEAR: Sample = Sample {
    r: 0,
    g: 0,
    b: 0,
    z: u16::MAX,
};

/// What the picture shows.
pub const DEFAULT_OUTPUT: Output = Output::Color;

/// The state of a draw on a picture of the greatest size: each fragment passes the depth test and replaces the colour
/// of every sample, no depth is stored, and no triangle is culled.
pub const DEFAULT_STATE: State = State {
    merge: Merge {
        test: DepthTest::Always,
        depth_write: false,
        write: [true, true, true],
        blend: Blend::NONE,
    },
    cull: Cull::None,
    sample_mask: ALL_SAMPLES,
    scissor: PixelBox {
        x0: 0,
        y0: 0,
        x1: MOST_PIXELS as i32,
        y1: MOST_PIXELS as i32,
    },
};

/// The state of a draw on a picture of these pixels.
pub fn default_state(picture: PixelBox) -> State
    ensures { result ≡ state_by_default picture }
{
    State {
        scissor: picture,
        ..DEFAULT_STATE
    }
}
