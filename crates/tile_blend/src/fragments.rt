//! What is to be merged with the samples of a tile.
ghost use Rattle.std.specs.Prelude.{◌≡◌, ◌↔◌, ◌⊎◌, ℕ, ◌+◌, ◌<◌, ◌≤◌, ◌==◌, if◌then◌else◌, length, slice_index, IsTrue};
ghost use Rattle.tile_blend.specs.Fragments.{entry_or_one, fragment_in, fragment_at, IsEachOrOne, AreFragments};

use grid::SampleCount;
use shade::Shaded;

/// Fragments for the samples of one tile, and which of them are kept. Of each array one entry may stand for all.
#[derive(Clone, Copy, Debug)]
pub struct TileFragments<'a> {
    /// Red + 256 * green + 65536 * blue + 16777216 * alpha of each sample, laid out as `View::tile_ids` writes ids.
    pub colours: &'a [u32],
    /// The depth of each sample, laid out as colours are.
    pub depths: &'a [u16],
    /// A mask for each sample index of each block: bit k is set if the sample of pixel `k` is kept.
    pub kept: &'a [u64],
}

/// Whether an array of this size has so many entries, or one that stands for all.
fn is_each_or_one(many: usize, size: usize) -> bool
    ensures { IsTrue result ↔ IsEachOrOne many size }
{
    size == 1 || size == many
}

/// Where entry `n` lies among `size`: at 0 if that one stands for all.
#[inline(always)]
fn place(size: usize, n: usize) -> usize
    requires { (size ≡ 1) ⊎ (n < size) }
    ensures value { result ≡ (if size == 1 then 0 else n) }
    ensures within { result < size }
{
    if size == 1 { 0 } else { n }
}

/// The fragment of a colour and a depth.
#[inline(always)]
fn fragment_from(colour: u32, depth: u16) -> Shaded
    ensures { result ≡ fragment_in colour depth }
{
    Shaded {
        r: (colour % 256) as u8,
        g: (colour / 256 % 256) as u8,
        b: (colour / 65536 % 256) as u8,
        a: (colour / 16777216 % 256) as u8,
        z: depth,
    }
}

impl TileFragments<'_> {
    /// Whether the arrays have as many entries as a tile.
    pub(crate) fn fit(&self, count: SampleCount) -> bool
        ensures { IsTrue result ↔ AreFragments count (length self.now.colours.now) (length self.now.depths.now)
            (length self.now.kept.now) }
    {
        let many = count.count() as usize;
        is_each_or_one(4096 * many, self.colours.len())
            && is_each_or_one(4096 * many, self.depths.len())
            && is_each_or_one(64 * many, self.kept.len())
    }

    /// The fragment of entry `n`.
    #[inline(always)]
    pub(crate) fn fragment(&self, n: usize) -> Shaded
        requires colours { (length self.now.colours.now ≡ 1) ⊎ (n < length self.now.colours.now) }
        requires depths { (length self.now.depths.now ≡ 1) ⊎ (n < length self.now.depths.now) }
        ensures { result ≡ fragment_at self.now.colours.now self.now.depths.now n }
    {
        let colour = self.colours[place(self.colours.len(), n)];
        fragment_from(colour, self.depths[place(self.depths.len(), n)])
    }

    /// The mask of this number.
    #[inline(always)]
    pub(crate) fn mask(&self, number: usize) -> u64
        requires { (length self.now.kept.now ≡ 1) ⊎ (number < length self.now.kept.now) }
        ensures { result ≡ entry_or_one self.now.kept.now number }
    {
        self.kept[place(self.kept.len(), number)]
    }

    /// Whether none of so many masks from a number on keeps a sample.
    pub(crate) fn keep_none(&self, from: usize, many: usize) -> bool
        requires room { (length self.now.kept.now ≡ 1) ⊎ (from + many ≤ length self.now.kept.now) }
        requires few { from + many ≤ 1024 }
        ensures { IsTrue result → (s : ℕ) → s < many → entry_or_one self.now.kept.now (from + s) ≡ 0 }
    {
        for s in 0..many {
            if self.mask(from + s) != 0 {
                return false;
            }
        }
        true
    }
}
