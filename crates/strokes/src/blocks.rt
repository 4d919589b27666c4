//! The blocks of a strip, in whose masks samples are marked.
ghost use Rattle.std.specs.Prelude.{◌≡◌, ◌<◌, ◌≤◌};
ghost use Rattle.grid.specs.Samples.{count_of};
ghost use Rattle.polygons.specs.Strip.{strip_sample};

use crate::piece::Piece;
use crate::row_marks::{in_row, mark_columns};
use polygons::{Flags, Strip};

/// The blocks of a strip whose masks are made.
#[derive(Clone, Copy, Debug)]
pub(crate) struct Blocks {
    pub(crate) strip: Strip,
    /// How many columns of blocks there are.
    pub(crate) columns: usize,
    pub(crate) ghost narrow: { columns ≤ 512 },
}

impl Blocks {
    ghost use Rattle.strokes.specs.Marking.{HoldsBlocks, Marks, MarksShape};
    ghost use Rattle.strokes.specs.Pieces.{IsInPiece};

    /// Marks a sample of each pixel of a row where a piece covers it.
    fn mark_row(&self, flags: &mut [Flags], piece: &Piece, s: u32, row: usize)
        requires room { HoldsBlocks self.now flags.old }
        requires sample { s < count_of self.now.strip.count }
        requires row { row < 64 }
        ensures { Marks self.now (λ t j k. ((t ≡ s) × (j ≡ row)) × IsInPiece piece.now (strip_sample self.now.strip t j k))
            flags.old flags.new }
    {
        let start = self.strip.start(s);
        let y = start.y() + 256 * row as i32;
        let columns = 8 * self.columns;
        let span = piece.span(start.x(), y, columns);
        let first = in_row(span.first, columns);
        let end = in_row(span.end, columns);
        mark_columns(flags, self.columns, s as usize, row, first, end);
    }

    /// Marks a sample of each pixel where a piece covers it.
    fn mark_rows(&self, flags: &mut [Flags], piece: &Piece, s: u32)
        requires room { HoldsBlocks self.now flags.old }
        requires sample { s < count_of self.now.strip.count }
        ensures { Marks self.now (λ t j k. (t ≡ s) × IsInPiece piece.now (strip_sample self.now.strip t j k))
            flags.old flags.new }
    {
        for row in 0..64 {
            self.mark_row(flags, piece, s, row);
        }
    }

    /// Marks the samples that a piece covers.
    pub(crate) fn mark(&self, flags: &mut [Flags], piece: &Piece)
        requires { HoldsBlocks self.now flags.old }
        ensures { MarksShape self.now (IsInPiece piece.now) flags.old flags.new }
    {
        for s in 0..self.strip.count.count() {
            self.mark_rows(flags, piece, s);
        }
    }
}
