//! Blocks of a tile that are kept in up to four samples.
ghost use Rattle.std.specs.Prelude.{◌≡◌, ◌≢◌, ◌↔◌, ◌⊎◌, ℕ, ◌+◌, ◌<◌, ◌≤◌, false, length, slice_index, IsTrue, IsSome, IfSome, IfNone};
ghost use Rattle.std.specs.Int.{bit_at};
ghost use Rattle.grid.specs.Samples.{count_of};
ghost use Rattle.lanes.specs.Block.{stored_at};
ghost use Rattle.blocks.specs.declared.way.Way.TheVariants.{Cleared as AsCleared, Single as AsSingle, Flat as AsFlat, FlatPair as AsFlatPair, FlatFour as AsFour};
ghost use Rattle.blocks.specs.Layout.{planes_of_tile, in_list, sample_place, way_in_tile, KeepsOtherSamples, KeepsOtherWays};
ghost use Rattle.blocks.specs.FlatBlocks.{flat_sample, HasOne};
ghost use Rattle.blocks.specs.Palettes.{palette_number, sample_numbered, palette_sample, HasPalette, IsGathered, IsPaletteReplaced, IsFlatReplacedInFour, HasNoPalette, HasNumbers, HasNoNumber, IsNewNumber, IsSampleStored, AreSamplesStored, KeepsOtherPlaces};

use crate::flat_block::{FlatBlock, has_bits, spread};
use crate::pair::{
    further_masks_of, further_plane, masks_of, merged, set_further_masks, set_masks, shared,
    united, without,
};
use crate::place::place_by;
use crate::way::{Way, set_way, way_of};
use grid::SampleCount;
use lanes::BlockSamples;
use shade::CanvasSample;

/// The samples of a block, of which there are up to four: sample `s` of a pixel is the one whose number has the pixel's
/// bit in `low[s]` as its lower bit, and that in `high[s]` as its upper one.
#[derive(Clone, Copy, Debug, PartialEq, Eq)]
pub struct Palette {
    /// The samples by their numbers.
    pub samples: [CanvasSample; 4],
    /// Of each sample index the pixels whose sample has an odd number.
    pub low: [u64; 16],
    /// Of each sample index the pixels whose sample has the number 2 or 3.
    pub high: [u64; 16],
}

/// A palette that is put together, and how many of its numbers are in use.
#[derive(Clone, Copy, Debug)]
struct Gathered {
    palette: Palette,
    used: usize,
    ghost few: { used ≤ 4 },
}

/// The number among those of the samples of a pixel with which sample `number` of a flat block is stored.
#[inline(always)]
fn place_of_number(count: SampleCount, number: u32) -> u32
    requires number { number < 4 }
    ensures value { result ≡ Rattle.blocks.specs.Palettes.place_of_number count number }
    ensures within { result < count_of count }
{
    number % 2 * (count.count() / 2) + number / 2 * (count.count() / 4)
}

/// The pixels that have this bit in a mask.
#[inline(always)]
fn pixels_with(mask: u64, bit: usize) -> u64
    requires { bit < 2 }
    ensures { (p : ℕ) → p < 64 → (bit_at result p ≡ 1) ↔ (bit_at mask p ≡ bit) }
{
    if bit == 1 { mask } else { !mask }
}

impl From<FlatBlock> for Palette {
    /// A block of one sample or two.
    #[inline(always)]
    fn from(flat: FlatBlock) -> Palette
        ensures { (s p : ℕ) → s < 16 → palette_sample result s p ≡ flat_sample flat s p }
    {
        let low = flat.masks;
        Palette {
            samples: [flat.first, flat.second, flat.first, flat.first],
            low,
            high: [0; 16],
        }
    }
}

impl Palette {
    /// The samples of block `k` of a tile with these planes, if it is kept in up to four. The fourth is not read if no
    /// sample is it.
    #[inline(always)]
    pub(crate) fn stored(count: SampleCount, k: usize, samples: &[BlockSamples]) -> Palette
        requires block { k < 64 }
        requires samples { length samples.now ≡ planes_of_tile count }
        ensures { (s p : ℕ) → s < count_of count → p < 64 → palette_sample result s p ≡
            stored_at (in_list samples.now (sample_place count AsFour (in_list samples.now) k p s)) k }
    {
        let many = count.count();
        let low = masks_of(count, &samples[place_by(count, Way::Own, k, many - 1)]);
        let more = place_by(count, Way::Own, k, further_plane(count));
        let high = further_masks_of(count, &samples[more]);
        let first = samples[place_by(count, Way::FlatFour, k, 0)].sample(k);
        let second = samples[place_by(count, Way::FlatFour, k, many / 2)].sample(k);
        let third = samples[place_by(count, Way::FlatFour, k, many / 4)].sample(k);
        let last = place_by(count, Way::FlatFour, k, many / 2 + many / 4);
        let fourth = if has_bits(count, &shared(count, &low, &high)) {
            samples[last].sample(k)
        } else {
            first
        };
        Palette {
            samples: [first, second, third, fourth],
            low,
            high,
        }
    }

    /// The samples of block `k` of a tile with these planes, if it is kept in up to four, or if `one_sample` finds that it
    /// has one.
    #[inline(always)]
    pub fn of(count: SampleCount, k: usize, samples: &[BlockSamples]) -> Option<Palette>
        requires block { k < 64 }
        requires samples { length samples.now ≡ planes_of_tile count }
        ensures palette { IfSome result (λ palette. HasPalette count k palette samples.now) }
        ensures some { (way_in_tile samples.now k ≡ AsFlat) ⊎ (way_in_tile samples.now k ≡ AsFlatPair) ⊎
            (way_in_tile samples.now k ≡ AsFour) → IsSome result }
        ensures one { (sample : CanvasSample) → HasOne count k sample samples.now →
            (way_in_tile samples.now k ≡ AsCleared) ⊎ (way_in_tile samples.now k ≡ AsSingle) → IsSome result }
    {
        if way_of(&samples[0], k) == Way::FlatFour {
            return Some(Palette::stored(count, k, samples));
        }
        match FlatBlock::of(count, k, samples) {
            None => None,
            Some(flat) => Some(Palette::from(flat)),
        }
    }

    /// A plane that has sample `s` of each pixel.
    #[inline(always)]
    pub(crate) fn plane(&self, s: u32) -> BlockSamples
        requires { s < 16 }
        ensures { (p : ℕ) → p < 64 → stored_at result p ≡ palette_sample self.now s p }
    {
        let (low, high) = (self.low[s as usize], self.high[s as usize]);
        let first = merged(&spread(self.samples[0]), &spread(self.samples[1]), low);
        let second = merged(&spread(self.samples[2]), &spread(self.samples[3]), low);
        merged(&first, &second, high)
    }

    /// Of each sample index the pixels whose sample has this number.
    #[inline(always)]
    pub(crate) fn pixels_of(&self, count: SampleCount, number: usize) -> [u64; 16]
        requires { number < 4 }
        ensures { (s p : ℕ) → s < count_of count → p < 64 → HasNumbers self.now number s p (slice_index result s) }
    {
        let mut pixels = [0; 16];
        for s in 0..count.count() as usize {
            pixels[s] = pixels_with(self.low[s], number % 2)
                & pixels_with(self.high[s], number / 2);
        }
        pixels
    }
}

impl Gathered {
    /// None yet. Their place has a sample that is no matter.
    #[inline(always)]
    fn none(sample: CanvasSample) -> Gathered
        ensures used { result.used ≡ 0 }
        ensures numbers { (s p : ℕ) → palette_number result.palette s p ≡ 0 }
    {
        Gathered {
            palette: Palette {
                samples: [sample; 4],
                low: [0; 16],
                high: [0; 16],
            },
            used: 0,
        }
    }

    /// The number of the sample, if it has one.
    #[inline(always)]
    fn found(&self, sample: CanvasSample) -> Option<usize>
        ensures number { IfSome result (λ n. (n < self.now.used) × (sample_numbered self.now.palette.samples n ≡ sample)) }
        ensures none { IfNone result (HasNoNumber self.now.palette.samples self.now.used sample) }
    {
        for n in 0..self.used {
            if self.palette.samples[n] == sample {
                return Some(n);
            }
        }
        None
    }

    /// The number of the sample, which is a new one if it has none yet, or `None` if all four are those of others.
    #[inline(always)]
    fn number(&mut self, sample: CanvasSample) -> Option<usize>
        ensures number { IfSome result (λ n. (n < self.new.used) × (sample_numbered self.new.palette.samples n ≡ sample)) }
        ensures none { IfNone result ((self.old.used ≡ 4) × HasNoNumber self.old.palette.samples 4 sample) }
        ensures fresh { (n : ℕ) → self.old.used ≤ n → n < self.new.used →
            IsNewNumber self.old.palette.samples self.old.used sample self.new.palette.samples n }
        ensures kept { (n : ℕ) → n < self.old.used →
            sample_numbered self.new.palette.samples n ≡ sample_numbered self.old.palette.samples n }
        ensures more { self.old.used ≤ self.new.used }
        ensures low { self.new.palette.low ≡ self.old.palette.low }
        ensures high { self.new.palette.high ≡ self.old.palette.high }
    {
        if let Some(n) = self.found(sample) {
            return Some(n);
        }
        if self.used == 4 {
            return None;
        }
        let n = self.used;
        self.palette.samples[n] = sample;
        self.used = n + 1;
        Some(n)
    }

    /// Gives the samples in these masks, which have the number 0, this one.
    #[inline(always)]
    fn mark(&mut self, count: SampleCount, number: usize, masks: &[u64; 16])
        requires number { number < 4 }
        requires new { (s p : ℕ) → s < count_of count → p < 64 → bit_at (slice_index masks.now s) p ≡ 1 →
            palette_number self.old.palette s p ≡ 0 }
        ensures marked { (s p : ℕ) → s < count_of count → p < 64 → bit_at (slice_index masks.now s) p ≡ 1 →
            palette_number self.new.palette s p ≡ number }
        ensures others { (s p : ℕ) → s < count_of count → p < 64 → bit_at (slice_index masks.now s) p ≢ 1 →
            palette_number self.new.palette s p ≡ palette_number self.old.palette s p }
        ensures samples { self.new.palette.samples ≡ self.old.palette.samples }
        ensures used { self.new.used ≡ self.old.used }
    {
        if number % 2 == 1 {
            self.palette.low = united(count, &self.palette.low, masks);
        }
        if number / 2 == 1 {
            self.palette.high = united(count, &self.palette.high, masks);
        }
    }

    /// Adds a sample, which is that of all pixels in these masks. These have the number 0 before. Returns whether it has
    /// a number then, or is that of none; else all four numbers are those of others.
    #[inline(always)]
    fn add(&mut self, count: SampleCount, sample: CanvasSample, masks: &[u64; 16]) -> bool
        requires { (s p : ℕ) → s < count_of count → p < 64 → bit_at (slice_index masks.now s) p ≡ 1 →
            palette_number self.old.palette s p ≡ 0 }
        ensures added { IsTrue result → (s p : ℕ) → s < count_of count → p < 64 →
            bit_at (slice_index masks.now s) p ≡ 1 → IsGathered self.new.palette self.new.used s p sample }
        ensures others { IsTrue result → (s p : ℕ) → s < count_of count → p < 64 →
            bit_at (slice_index masks.now s) p ≢ 1 → palette_number self.new.palette s p ≡ palette_number self.old.palette s p }
        ensures kept { (n : ℕ) → n < self.old.used →
            sample_numbered self.new.palette.samples n ≡ sample_numbered self.old.palette.samples n }
        ensures more { self.old.used ≤ self.new.used }
        ensures full { result ≡ false → (self.old.used ≡ 4) × HasNoNumber self.old.palette.samples 4 sample }
        ensures fresh { (n : ℕ) → self.old.used ≤ n → n < self.new.used →
            IsNewNumber self.old.palette.samples self.old.used sample self.new.palette.samples n }
        ensures empty { ((s p : ℕ) → s < count_of count → p < 64 → bit_at (slice_index masks.now s) p ≢ 1) →
            IsTrue result × (self.new.used ≡ self.old.used) }
    {
        if !has_bits(count, masks) {
            return true;
        }
        match self.number(sample) {
            None => false,
            Some(number) => {
                self.mark(count, number, masks);
                true
            }
        }
    }
}

impl Palette {
    /// The samples once, where these masks have a bit, those of `drawn` have taken the place of those of the same
    /// numbers, or `None` if these are more than four.
    #[inline(always)]
    pub fn replaced(
        &self,
        count: SampleCount,
        masks: &[u64; 16],
        drawn: &[CanvasSample; 4],
    ) -> Option<Palette>
        ensures replaced { IfSome result (λ palette. IsPaletteReplaced count self.now masks.now drawn.now palette) }
        ensures none { IfNone result (HasNoPalette count self.now masks.now drawn.now) }
    {
        let mut gathered = Gathered::none(self.samples[0]);
        for number in 0..4 {
            let pixels = self.pixels_of(count, number);
            let kept = without(count, &pixels, masks);
            if !gathered.add(count, self.samples[number], &kept) {
                return None;
            }
            let changed = shared(count, &pixels, masks);
            if !gathered.add(count, drawn[number], &changed) {
                return None;
            }
        }
        Some(gathered.palette)
    }

    /// The samples of a block of one or two once, where these masks have a bit, `first` has taken the place of the first one,
    /// and `second` that of the second one. If `first` and `second` are the same, no sample is the fourth.
    #[inline(always)]
    pub fn flat_replaced(
        count: SampleCount,
        flat: &FlatBlock,
        masks: &[u64; 16],
        first: CanvasSample,
        second: CanvasSample,
    ) -> Palette
        ensures replaced { IsFlatReplacedInFour count flat.now masks.now first second result }
        ensures fourth { first ≡ second → (s p : ℕ) → s < count_of count → p < 64 → palette_number result s p ≢ 3 }
    {
        let high = *masks;
        let samples = [flat.first, flat.second, first, second];
        if first == second {
            let low = without(count, &flat.masks, masks);
            return Palette { samples, low, high };
        }
        let low = flat.masks;
        Palette { samples, low, high }
    }

    /// Stores the sample of this number as one of flat block `k` of a tile.
    #[inline(always)]
    fn store_sample(&self, count: SampleCount, k: usize, number: u32, samples: &mut [BlockSamples])
        requires some { 4 ≤ count_of count }
        requires block { k < 64 }
        requires number { number < 4 }
        requires samples { length samples.old ≡ planes_of_tile count }
        ensures { IsSampleStored count k self.now.samples number samples.old samples.new }
    {
        let place = place_by(count, Way::FlatFour, k, place_of_number(count, number));
        samples[place].set(k, self.samples[number as usize]);
    }

    /// Stores the samples as those of flat block `k` of a tile, but for the fourth if no sample of a pixel is it.
    #[inline(always)]
    fn store_samples(&self, count: SampleCount, k: usize, samples: &mut [BlockSamples])
        requires some { 4 ≤ count_of count }
        requires block { k < 64 }
        requires samples { length samples.old ≡ planes_of_tile count }
        ensures stored { AreSamplesStored count k self.now samples.new }
        ensures others { KeepsOtherPlaces count k samples.old samples.new }
        ensures first { in_list samples.new 0 ≡ in_list samples.old 0 }
    {
        self.store_sample(count, k, 0, samples);
        self.store_sample(count, k, 1, samples);
        self.store_sample(count, k, 2, samples);
        if has_bits(count, &shared(count, &self.low, &self.high)) {
            self.store_sample(count, k, 3, samples);
        }
    }

    /// Makes these the samples of block `k` of a tile.
    #[inline(always)]
    pub fn store(&self, count: SampleCount, k: usize, samples: &mut [BlockSamples])
        requires some { 4 ≤ count_of count }
        requires block { k < 64 }
        requires samples { length samples.old ≡ planes_of_tile count }
        ensures made { HasPalette count k self.now samples.new }
        ensures ways { KeepsOtherWays k samples.old samples.new }
        ensures others { KeepsOtherSamples count k samples.old samples.new }
    {
        if !has_bits(count, &self.high) {
            let masks = self.low;
            let flat = FlatBlock {
                first: self.samples[0],
                second: self.samples[1],
                masks,
            };
            flat.store(count, k, samples);
            return;
        }
        self.store_samples(count, k, samples);
        let masks = place_by(count, Way::Own, k, count.count() - 1);
        set_masks(count, &self.low, &mut samples[masks]);
        let more = place_by(count, Way::Own, k, further_plane(count));
        set_further_masks(count, &self.high, &mut samples[more]);
        set_way(&mut samples[0], k, Way::FlatFour);
    }
}
