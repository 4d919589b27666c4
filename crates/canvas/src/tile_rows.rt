//! Tile rows that are drawn together.
ghost use Rattle.std.specs.Prelude.{◌≡◌, ◌↔◌, ℕ, ◌+◌, ◌/◌, ◌<◌, ◌≤◌, List, ◌++◌, length, IsSome, IfSome};

use crate::canvas::Canvas;

/// Tile rows of a canvas, one below the other, whose planes lie together. Threads share a canvas by its tile rows.
#[derive(Clone, Copy, Debug)]
pub struct TileRows {
    /// The canvas.
    pub canvas: Canvas,
    /// The first tile row.
    pub first: u32,
    /// The tile row after the last one.
    pub end: u32,
    pub ghost rising: { first ≤ end },
    pub ghost within: { end ≤ (canvas.height + 63) / 64 },
}

impl TileRows {
    ghost use Rattle.lanes.specs.declared.block_samples.BlockSamples.{BlockSamples as Planes};
    ghost use Rattle.canvas.specs.Layout.{IsStoredIn, planes_of_rows, stored};

    /// How many planes these tile rows have.
    pub fn planes(&self) -> usize
        ensures value { result ≡ planes_of_rows self.now.canvas self.now.first self.now.end }
        ensures few { result ≤ 4263936 }
    {
        (self.end - self.first) as usize * self.canvas.planes_of_row()
    }

    /// The tile rows before row `at`, and those from there on. Returns `None` if `at` is none of these tile rows nor
    /// their end. The planes of the first part, and behind them those of the second, are those of the whole.
    pub fn split(&self, at: u32) -> Option<(TileRows, TileRows)>
        ensures some { IsSome result ↔ ((self.now.first ≤ at) × (at ≤ self.now.end)) }
        ensures upper { IfSome result (λ parts. (parts.0.canvas ≡ self.now.canvas) × (parts.0.first ≡ self.now.first) ×
            (parts.0.end ≡ at)) }
        ensures lower { IfSome result (λ parts. (parts.1.canvas ≡ self.now.canvas) × (parts.1.first ≡ at) ×
            (parts.1.end ≡ self.now.end)) }
        ensures planes { IfSome result (λ parts. planes_of_rows self.now.canvas self.now.first self.now.end ≡
            planes_of_rows self.now.canvas self.now.first at + planes_of_rows self.now.canvas at self.now.end) }
        ensures in_upper { IfSome result (λ parts. (xs ys : List Planes) (i j s : ℕ) → length xs ≡ planes_of_rows self.now.canvas self.now.first at → IsStoredIn self.now.canvas self.now.first at i j s
            → stored self.now.canvas self.now.first (xs ++ ys) i j s ≡ stored self.now.canvas self.now.first xs i j s) }
        ensures in_lower { IfSome result (λ parts. (xs ys : List Planes) (i j s : ℕ) → length xs ≡ planes_of_rows self.now.canvas self.now.first at → IsStoredIn self.now.canvas at self.now.end i j s
            → stored self.now.canvas self.now.first (xs ++ ys) i j s ≡ stored self.now.canvas at ys i j s) }
    {
        if self.first <= at && at <= self.end {
            let upper = TileRows {
                canvas: self.canvas,
                first: self.first,
                end: at,
            };
            let lower = TileRows {
                canvas: self.canvas,
                first: at,
                end: self.end,
            };
            Some((upper, lower))
        } else {
            None
        }
    }
}
