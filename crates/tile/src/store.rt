//! The samples of one tile.
ghost use Rattle.std.specs.Prelude.{◌≡◌, vec_len, IfOk};
ghost use Rattle.raster.specs.Samples.{planes_of};

use grid::{OutOfMemory, SampleCount, TileSide};
use lanes::BlockSamples;
use shade::Sample;
use std::alloc::Global;
use std::marker::Model;

/// What the samples of a new store are, until a tile is drawn.
const BLANK: Sample = Sample {
    r: 0,
    g: 0,
    b: 0,
    z: 0,
};

/// The samples of one tile. It is used for one tile after another; between two tiles its samples are unspecified.
#[derive(Drop)]
pub struct Store {
    side: TileSide,
    count: SampleCount,
    pub(crate) samples: Vec<BlockSamples>,
}

impl Model for Store {
    ghost use Rattle.std.specs.Prelude.{◌≡◌, vec_len};
    ghost use Rattle.raster.specs.Samples.{planes_of};
    ghost use Rattle.tile.specs.Store.{Room};

    ghost Value = { Room };

    ghost view = { λ s. record { side = s.side; count = s.count } };

    ghost invariant = { λ s. vec_len s.samples ≡ planes_of s.side s.count };
}

/// `number` sample planes, whose samples are unspecified.
fn blank(alloc: Global, number: usize) -> Result<Vec<BlockSamples>, OutOfMemory>
    ensures { IfOk result (λ samples. vec_len samples ≡ number) }
{
    Ok(vec![in alloc; BlockSamples::filled(BLANK, 255); number]?)
}

impl Store {
    /// A store for tiles of this size with `count` samples per pixel.
    pub fn new(alloc: Global, side: TileSide, count: SampleCount) -> Result<Store, OutOfMemory>
        ensures { IfOk result (λ store. store ≡ record { side = side; count = count }) }
    {
        let blocks = (side.pixels() / 8) * (side.pixels() / 8);
        Ok(Store {
            side,
            count,
            samples: blank(alloc, (blocks * count.count()) as usize)?,
        })
    }

    /// The tile size.
    pub fn side(&self) -> TileSide
        ensures { result ≡ self.now.side }
    {
        self.side
    }

    /// How many samples a pixel has.
    pub fn count(&self) -> SampleCount
        ensures { result ≡ self.now.count }
    {
        self.count
    }
}
