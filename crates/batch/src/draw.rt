ghost use Rattle.std.specs.Prelude.{◌≡◌, ⊤};
ghost use Rattle.checks.specs.Checking.{IsJudged};
ghost use Rattle.batch.specs.Listed.{cull_listed, depth_test_listed, scissor_listed, state_listed, whole_draw};
ghost use Rattle.batch.specs.States.{state_checks};

use crate::blend::BatchBlend;
use crate::fault::BatchCause;
use grid::{Cull, PixelBox};
use shade::{DepthTest, Merge, State};

/// A draw: how many of the batch's vertices and indices are its own, what primitives the indices are, and the state in
/// which these are drawn. It is laid out as in C.
#[repr(C)]
#[derive(Clone, Copy, Debug, PartialEq, Eq)]
pub struct BatchDraw {
    /// How many vertices it has, which follow those of the draws before it.
    pub vertices: usize,
    /// How many indices it has, which follow those of the draws before it.
    pub indices: usize,
    /// What the indices are: 0 triangles, three indices each; 1 a strip; 2 quads, four indices each.
    pub topology: u8,
    /// Which triangles are dropped: 0 none, 1 those that face the front, 2 those that face the back.
    pub cull: u8,
    /// When a new depth passes: 0 always, 1 never, 2 less, 3 equal, 4 less or equal, 5 greater, 6 not equal, 7 greater
    /// or equal.
    pub depth_test: u8,
    /// 1 if the new depth is stored when the test passes, else 0.
    pub depth_write: u8,
    /// The channels that are not written: 1 red, 2 green, 4 blue, 8 alpha, added.
    pub keep: u8,
    /// 1 if the scissor is looked at, else 0.
    pub scissor_enable: u8,
    /// Bit s says whether sample s is not drawn. Bits of samples that a pixel does not have are ignored.
    pub skip_samples: u16,
    /// The first column of the screen's pixels that is drawn.
    pub scissor_left: i32,
    /// The first row of pixels that is drawn.
    pub scissor_top: i32,
    /// The first column after those that are drawn.
    pub scissor_right: i32,
    /// The first row after those that are drawn.
    pub scissor_bottom: i32,
    /// How the new colour is combined with the stored one.
    pub blend: BatchBlend,
}

/// Each pixel whose column and row have 32 bits.
const EVERYWHERE: PixelBox = PixelBox {
    x0: i32::MIN,
    y0: i32::MIN,
    x1: i32::MAX,
    y1: i32::MAX,
};

/// Which triangles are dropped.
fn cull(number: u8) -> Cull
    ensures { result ≡ cull_listed number }
{
    match number {
        0 => Cull::None,
        1 => Cull::Front,
        _ => Cull::Back,
    }
}

/// When a new depth passes.
fn depth_test(number: u8) -> DepthTest
    ensures { result ≡ depth_test_listed number }
{
    match number {
        0 => DepthTest::Always,
        1 => DepthTest::Never,
        2 => DepthTest::Less,
        3 => DepthTest::Equal,
        4 => DepthTest::LessEqual,
        5 => DepthTest::Greater,
        6 => DepthTest::NotEqual,
        _ => DepthTest::GreaterEqual,
    }
}

impl BatchDraw {
    /// One draw of these vertices and indices, whose other numbers are zero.
    pub(crate) fn whole(vertices: usize, indices: usize) -> BatchDraw
        ensures { result ≡ whole_draw vertices indices }
    {
        BatchDraw {
            vertices,
            indices,
            topology: 0,
            cull: 0,
            depth_test: 0,
            depth_write: 0,
            keep: 0,
            scissor_enable: 0,
            skip_samples: 0,
            scissor_left: 0,
            scissor_top: 0,
            scissor_right: 0,
            scissor_bottom: 0,
            blend: BatchBlend::NONE,
        }
    }

    /// Checks the numbers of the state. Returns the cause of the first one that is outside of its range.
    pub fn check_state(&self) -> Result<(), BatchCause>
        ensures { IsJudged (state_checks self.now) (λ done. ⊤) result }
    {
        if self.topology > 2 {
            return Err(BatchCause::BadTopology);
        }
        if self.cull > 2 {
            return Err(BatchCause::BadCull);
        }
        if self.depth_test > 7 {
            return Err(BatchCause::BadDepthTest);
        }
        if self.depth_write > 1 {
            return Err(BatchCause::BadDepthWrite);
        }
        if self.keep > 15 {
            return Err(BatchCause::BadKeep);
        }
        if self.scissor_enable > 1 {
            return Err(BatchCause::BadScissorEnable);
        }
        if !self.blend.has_factors() {
            return Err(BatchCause::BadFactor);
        }
        if !self.blend.has_operations() {
            return Err(BatchCause::BadOperation);
        }
        Ok(())
    }

    /// The pixels of the screen that are drawn.
    fn scissor(&self) -> PixelBox
        ensures { result ≡ scissor_listed self.now }
    {
        match self.scissor_enable {
            0 => EVERYWHERE,
            _ => PixelBox {
                x0: self.scissor_left,
                y0: self.scissor_top,
                x1: self.scissor_right,
                y1: self.scissor_bottom,
            },
        }
    }

    /// The state, on a canvas that has alpha or not.
    pub fn state(&self, has_alpha: bool) -> State
        ensures { result ≡ state_listed has_alpha self.now }
    {
        State {
            merge: Merge {
                test: depth_test(self.depth_test),
                depth_write: self.depth_write == 1,
                write: [
                    self.keep % 2 == 0,
                    self.keep / 2 % 2 == 0,
                    self.keep / 4 % 2 == 0,
                ],
                blend: self.blend.blend(has_alpha && self.keep / 8 % 2 == 0),
            },
            cull: cull(self.cull),
            sample_mask: u16::MAX - self.skip_samples,
            scissor: self.scissor(),
        }
    }
}
