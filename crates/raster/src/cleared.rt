//! Samples that are all the same.
ghost use Rattle.shade.specs.Canvas.{with_alpha};
ghost use Rattle.raster.specs.Samples.{AreAll};

use lanes::BlockSamples;
use shade::Sample;

/// Makes each sample the given one, with this alpha.
pub fn clear(samples: &mut [BlockSamples], sample: Sample, alpha: u8)
    ensures { AreAll samples.new (with_alpha sample alpha) }
{
    let cleared = BlockSamples::filled(sample, alpha);
    for plane in samples.iter_mut() {
        *plane = cleared;
    }
}
