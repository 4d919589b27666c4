use crate::sample::Merge;
use grid::{Cull, PixelBox};

/// How the triangles of a draw are drawn.
#[derive(Clone, Copy, Debug, PartialEq, Eq)]
pub struct State {
    /// The depth test, the write mask and the blending.
    pub merge: Merge,
    /// Which triangles are left out by the way that they run.
    pub cull: Cull,
    /// Bit s says whether sample s of a pixel is drawn.
    pub sample_mask: u16,
    /// The pixels that are drawn.
    pub scissor: PixelBox,
}
