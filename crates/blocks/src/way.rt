//! The ways in which the blocks of a tile keep their samples, as its first plane says them.
ghost use Rattle.std.specs.Prelude.{◌≡◌, ◌≢◌, ◌↔◌, ℕ, ◌<◌, slice_index, IsTrue};
ghost use Rattle.blocks.specs.declared.way.Way.TheVariants.{Cleared as AsCleared, Own as AsOwn};
ghost use Rattle.blocks.specs.Layout.{way_of as the_way, is_plain as plain, slot_by};

use lanes::BlockSamples;
use shade::Sample;

/// The way in which a block of a tile keeps its samples.
#[derive(Clone, Copy, Debug, PartialEq, Eq)]
pub enum Way {
    /// As the block to which the tile was cleared, in whose one plane a sample stands for all of its pixel.
    Cleared,
    /// In the first of its own planes alone, in which a sample stands for all of its pixel.
    Single,
    /// In two of its own planes. Masks in a third say which of the two has a sample of a pixel.
    Pair,
    /// In its own planes, one for each sample of a pixel.
    Own,
    /// In one sample, which stands for all samples of all of its pixels.
    Flat,
    /// In two samples. Masks in one of its own planes say which of the two a sample of a pixel is.
    FlatPair,
    /// In up to four samples. Masks in two of its own planes say which of them a sample of a pixel is.
    FlatFour,
}

impl Way {
    /// Whether the block has its samples of an index in one plane, each at the number of its pixel.
    #[inline]
    pub fn is_plain(self) -> bool
        ensures { result ≡ plain self }
    {
        match self {
            Way::Cleared | Way::Single | Way::Own => true,
            Way::Pair | Way::Flat | Way::FlatPair | Way::FlatFour => false,
        }
    }

    /// The number of the sample of pixel `p` of block `k` in its plane: that of the pixel, but that of the block if it is
    /// flat.
    #[inline]
    pub(crate) fn slot(self, k: usize, p: usize) -> usize
        requires block { k < 64 }
        requires pixel { p < 64 }
        ensures value { result ≡ slot_by self k p }
        ensures within { result < 64 }
    {
        match self {
            Way::Cleared | Way::Single | Way::Pair | Way::Own => p,
            Way::Flat | Way::FlatPair | Way::FlatFour => k,
        }
    }
}

/// The red byte of a block that is kept as the one to which the tile was cleared.
const CLEARED: u8 = 1;

/// The red byte of a block that is kept in one plane of its own.
const SINGLE: u8 = 2;

/// The red byte of a block that is kept as a pair.
const PAIR: u8 = 3;

/// The red byte of a block that is kept in one sample.
const FLAT: u8 = 4;

/// The red byte of a block that is kept in two samples.
const FLAT_PAIR: u8 = 5;

/// The red byte of a block that is kept in up to four samples.
const FLAT_FOUR: u8 = 6;

/// The red byte of a block that is kept in its own planes. So is one with any other byte.
const OWN: u8 = 0;

/// The way in which block `k` of the tile with this first plane keeps its samples.
#[inline]
pub fn way_of(state: &BlockSamples, k: usize) -> Way
    requires { k < 64 }
    ensures { result ≡ the_way state.now k }
{
    if state.g[0] == 0 {
        return Way::Own;
    }
    match state.r[k] {
        CLEARED => Way::Cleared,
        SINGLE => Way::Single,
        PAIR => Way::Pair,
        FLAT => Way::Flat,
        FLAT_PAIR => Way::FlatPair,
        FLAT_FOUR => Way::FlatFour,
        _ => Way::Own,
    }
}

/// Whether the first plane of a tile says of all blocks at once that they are kept in their own planes.
#[inline]
pub(crate) fn says_own(state: &BlockSamples) -> bool
    ensures { IsTrue result → (k : ℕ) → the_way state.now k ≡ AsOwn }
{
    state.g[0] == 0
}

/// Whether all blocks of the tile with this first plane are kept as the one to which it was cleared.
#[inline]
pub(crate) fn says_cleared(state: &BlockSamples) -> bool
    ensures { IsTrue result ↔ ((k : ℕ) → k < 64 → the_way state.now k ≡ AsCleared) }
{
    state.g[0] != 0 && state.r == [CLEARED; 64]
}

/// The first plane of a tile, all of whose blocks are kept as the one to which it was cleared.
pub(crate) fn all_cleared() -> BlockSamples
    ensures { (k : ℕ) → k < 64 → the_way result k ≡ AsCleared }
{
    let marks = Sample {
        r: CLEARED,
        g: 1,
        b: 0,
        z: 0,
    };
    BlockSamples::filled(marks, 255)
}

/// Has the first plane of a tile say that all blocks are kept in their own planes.
pub(crate) fn set_all_own(state: &mut BlockSamples)
    ensures { (k : ℕ) → the_way state.new k ≡ AsOwn }
{
    state.g[0] = 0;
}

/// Has the first plane of a tile speak of each block by itself.
fn say_each(state: &mut BlockSamples)
    ensures each { slice_index state.new.g 0 ≢ 0 }
    ensures kept { (k : ℕ) → k < 64 → the_way state.new k ≡ the_way state.old k }
{
    if state.g[0] == 0 {
        state.r = [OWN; 64];
        state.g[0] = 1;
    }
}

/// Has the first plane of a tile say in which way block `k` keeps its samples.
pub(crate) fn set_way(state: &mut BlockSamples, k: usize, way: Way)
    requires { k < 64 }
    ensures set { the_way state.new k ≡ way }
    ensures others { (m : ℕ) → m < 64 → m ≢ k → the_way state.new m ≡ the_way state.old m }
{
    say_each(state);
    state.r[k] = match way {
        Way::Cleared => CLEARED,
        Way::Single => SINGLE,
        Way::Pair => PAIR,
        Way::Own => OWN,
        Way::Flat => FLAT,
        Way::FlatPair => FLAT_PAIR,
        Way::FlatFour => FLAT_FOUR,
    };
}
