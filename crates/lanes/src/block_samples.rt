ghost use Rattle.std.specs.Prelude.{◌≡◌, ℕ, ◌<◌};
ghost use Rattle.shade.specs.Canvas.{with_alpha};
ghost use Rattle.lanes.specs.Block.{stored_at};

use shade::{CanvasSample, Sample};

/// One sample of each pixel of a block of 8 by 8 pixels, row by row: those of one sample index. Depths and the four
/// channels are each kept apart, so that many are read at once.
#[repr(C)]
#[derive(Clone, Copy, Debug, PartialEq, Eq)]
pub struct BlockSamples {
    /// Depths.
    pub z: [u16; 64],
    /// Red.
    pub r: [u8; 64],
    /// Green.
    pub g: [u8; 64],
    /// Blue.
    pub b: [u8; 64],
    /// Alpha; 255 where no alpha is wanted.
    pub alpha: [u8; 64],
}

impl BlockSamples {
    ghost use Rattle.std.specs.Prelude.{◌≢◌};

    /// All samples the same, with this alpha.
    pub fn filled(sample: Sample, alpha: u8) -> BlockSamples
        ensures { (k : ℕ) → k < 64 → stored_at result k ≡ with_alpha sample alpha }
    {
        BlockSamples {
            z: [sample.z; 64],
            r: [sample.r; 64],
            g: [sample.g; 64],
            b: [sample.b; 64],
            alpha: [alpha; 64],
        }
    }

    /// The sample of pixel `k`.
    pub fn sample(&self, k: usize) -> CanvasSample
        requires { k < 64 }
        ensures { result ≡ stored_at self.now k }
    {
        CanvasSample {
            r: self.r[k],
            g: self.g[k],
            b: self.b[k],
            alpha: self.alpha[k],
            z: self.z[k],
        }
    }

    /// Stores the sample of pixel `k`.
    pub fn set(&mut self, k: usize, sample: CanvasSample)
        requires { k < 64 }
        ensures stored { stored_at self.new k ≡ sample }
        ensures kept { (j : ℕ) → j < 64 → j ≢ k → stored_at self.new j ≡ stored_at self.old j }
    {
        self.r[k] = sample.r;
        self.g[k] = sample.g;
        self.b[k] = sample.b;
        self.alpha[k] = sample.alpha;
        self.z[k] = sample.z;
    }
}
