ghost use Rattle.std.specs.Prelude.{◌≡◌, ◌↔◌, IsTrue};

use crate::blend::Blend;
use crate::depth::DepthTest;

/// A stored sample: its colour, 0 to 255 a channel, and its depth, 0 to 65535.
#[derive(Clone, Copy, Debug, PartialEq, Eq)]
pub struct Sample {
    pub r: u8,
    pub g: u8,
    pub b: u8,
    pub z: u16,
}

/// A stored sample of a canvas: its colour and its depth as those of `Sample`, and its alpha, 0 to 255. Where no alpha is
/// wanted, it is 255, and no draw writes it.
#[derive(Clone, Copy, Debug, PartialEq, Eq)]
pub struct CanvasSample {
    pub r: u8,
    pub g: u8,
    pub b: u8,
    pub alpha: u8,
    pub z: u16,
}

/// The colour, alpha and depth of a triangle at one point, with the ranges of a stored sample.
#[derive(Clone, Copy, Debug, PartialEq, Eq)]
pub struct Shaded {
    pub r: u8,
    pub g: u8,
    pub b: u8,
    pub a: u8,
    pub z: u16,
}

/// How a triangle's samples are merged with the stored ones (Direct3D 11, output-merger stage).
#[derive(Clone, Copy, Debug, PartialEq, Eq)]
pub struct Merge {
    /// The test that a new depth has to pass.
    pub test: DepthTest,
    /// Whether the depth is stored if the test passes.
    pub depth_write: bool,
    /// Which of red, green and blue are written.
    pub write: [bool; 3],
    /// How the new colour is combined with the stored one.
    pub blend: Blend,
}

impl Merge {
    ghost use Rattle.shade.specs.Merging.{ReadsAlpha};

    /// Whether the alpha of fragments is read: the colours are blended by it, or alpha is written.
    #[inline(always)]
    pub fn reads_alpha(&self) -> bool
        ensures { IsTrue result ↔ ReadsAlpha self.now }
    {
        self.blend.colour.reads_source_alpha() || self.blend.write_alpha
    }
}

impl Sample {
    ghost use Rattle.shade.specs.Canvas.{with_alpha};

    /// The sample with this alpha.
    #[inline(always)]
    pub fn with_alpha(self, alpha: u8) -> CanvasSample
        ensures { result ≡ with_alpha self alpha }
    {
        CanvasSample {
            r: self.r,
            g: self.g,
            b: self.b,
            alpha,
            z: self.z,
        }
    }
}

impl CanvasSample {
    ghost use Rattle.shade.specs.Canvas.{colour_and_depth};

    /// Its colour and its depth.
    #[inline(always)]
    pub fn colour_and_depth(self) -> Sample
        ensures { result ≡ colour_and_depth self }
    {
        Sample {
            r: self.r,
            g: self.g,
            b: self.b,
            z: self.z,
        }
    }
}
