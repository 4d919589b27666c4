//! The spans of many triangles.
ghost use Rattle.std.specs.Prelude.{◌≡◌, ◌≢◌, ℕ, ◌+◌, ◌<◌, ◌≤◌, IsBitSet, slice_index};
ghost use Rattle.reach.specs.Bounds.{HasPlace};

use crate::span::Span;
use crate::words::{above, at_most};

/// Spans of tiles, in a row or a column of tiles, for each of up to `N` triangles: bytes, so that sixteen are compared
/// at once.
#[derive(Drop)]
pub struct Spans<const N: usize> {
    /// The first tile of each span.
    pub firsts: [u8; N],
    /// The tile after the last one of each span.
    pub ends: [u8; N],
}

impl<const N: usize> Spans<N> {
    /// Sets the span of this number. All other spans are unchanged.
    #[inline(always)]
    pub fn set(&mut self, number: usize, span: Span)
        requires number { number < N }
        requires first { span.first ≤ 255 }
        requires end { span.end ≤ 255 }
        ensures first { slice_index self.new.firsts number ≡ span.first }
        ensures end { slice_index self.new.ends number ≡ span.end }
        ensures firsts { (n : ℕ) → n ≢ number → slice_index self.new.firsts n ≡ slice_index self.old.firsts n }
        ensures ends { (n : ℕ) → n ≢ number → slice_index self.new.ends n ≡ slice_index self.old.ends n }
    {
        self.firsts[number] = span.first as u8;
        self.ends[number] = span.end as u8;
    }

    /// The span of this number.
    #[inline(always)]
    pub fn span(&self, number: usize) -> Span
        requires { number < N }
        ensures first { result.first ≡ slice_index self.now.firsts number }
        ensures end { result.end ≡ slice_index self.now.ends number }
        ensures least { result.first ≤ 255 }
    {
        Span {
            first: u32::from(self.firsts[number]),
            end: u32::from(self.ends[number]),
        }
    }

    /// A bit for each of the sixteen spans from number `from` on, the lowest for the first: it is set for those that
    /// have this tile.
    #[inline(always)]
    pub fn having(&self, from: usize, place: u32) -> u64
        requires from { from + 16 ≤ N }
        requires place { place < 64 }
        ensures { (bit : ℕ) → bit < 16 → HasPlace self.now.firsts self.now.ends (from + bit) place →
            IsBitSet result bit }
    {
        let place = place as u8;
        let (firsts, ends) = (&self.firsts[..], &self.ends[..]);
        at_most(&firsts[from..], place) & above(&ends[from..], place)
    }
}
