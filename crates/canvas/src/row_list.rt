//! The triangles of a tile row.
ghost use Rattle.std.specs.Prelude.{◌≡◌, ◌≢◌, ℕ, ◌+◌, ◌%◌, ◌<◌, ◌≤◌, [], ◌∷◌, ◌++◌, length, take, slice_index};
ghost use Rattle.reach.specs.Bounds.{AreBounds};
ghost use Rattle.reach.specs.Reach.{IsInSpan};
ghost use Rattle.canvas.specs.Layout.{rows_of};
ghost use Rattle.canvas.specs.Rows.{AreOfRow};

use crate::canvas::Canvas;
use reach::{Bounds, NOWHERE, Span, Spans, next_bit};
use shade::Triangles;

/// The numbers of those of up to `N` triangles that can meet a sample of a tile row, in draw order, each with the
/// columns of tiles in which it can.
#[derive(Drop)]
pub(crate) struct RowList<const N: usize> {
    pub(crate) numbers: [u16; N],
    pub(crate) columns: Spans<N>,
    /// How many there are.
    pub(crate) count: usize,
    /// The columns of tiles from the first that any of them can meet to the last.
    pub(crate) span: Span,
    pub(crate) ghost fits: { count ≤ N },
    pub(crate) ghost whole: { N % 16 ≡ 0 },
    pub(crate) ghost few: { N ≤ 65536 },
}

impl<const N: usize> RowList<N> {
    /// Adds a triangle.
    #[inline(always)]
    fn push(&mut self, number: usize, columns: Span)
        requires room { self.old.count < N }
        requires number { number < 65536 }
        requires first { columns.first ≤ 255 }
        requires end { columns.end ≤ 255 }
        ensures count { self.new.count ≡ self.old.count + 1 }
        ensures last { slice_index self.new.numbers self.old.count ≡ number }
        ensures numbers { (n : ℕ) → n ≢ self.old.count → slice_index self.new.numbers n ≡
            slice_index self.old.numbers n }
        ensures number { take (self.old.count + 1) self.new.numbers ≡
            take self.old.count self.old.numbers ++ number ∷ [] }
        ensures first { slice_index self.new.columns.firsts self.old.count ≡ columns.first }
        ensures end { slice_index self.new.columns.ends self.old.count ≡ columns.end }
        ensures firsts { (n : ℕ) → n ≢ self.old.count → slice_index self.new.columns.firsts n ≡
            slice_index self.old.columns.firsts n }
        ensures ends { (n : ℕ) → n ≢ self.old.count → slice_index self.new.columns.ends n ≡
            slice_index self.old.columns.ends n }
        ensures span { (n : ℕ) → IsInSpan columns n → IsInSpan self.new.span n }
        ensures kept { (n : ℕ) → IsInSpan self.old.span n → IsInSpan self.new.span n }
    {
        let place = self.count;
        self.numbers[place] = number as u16;
        self.columns.set(place, columns);
        self.span = self.span.joined(columns);
        self.count = place + 1;
    }

    /// Adds those of the sixteen triangles from number `from` on that can meet a sample of the tile row.
    fn add_some<T: Triangles>(
        &mut self,
        canvas: &Canvas,
        row: u32,
        triangles: &T,
        bounds: &Bounds<N>,
        from: usize,
    )
        requires row { row < rows_of canvas.now }
        requires few { length (T.listed triangles.now) ≤ N }
        requires place { from % 16 ≡ 0 }
        requires from { from < length (T.listed triangles.now) }
        requires bounds { AreBounds (T.listed triangles.now) (length (T.listed triangles.now)) bounds.now.columns.firsts
            bounds.now.columns.ends bounds.now.rows.firsts bounds.now.rows.ends bounds.now.span }
        requires count { self.old.count ≤ from }
        requires before { AreOfRow (T.listed triangles.now) canvas.now row from self.old.numbers self.old.columns.firsts
            self.old.columns.ends self.old.count self.old.span }
        ensures count { self.new.count ≤ from + 16 }
        ensures after { AreOfRow (T.listed triangles.now) canvas.now row (from + 16) self.new.numbers
            self.new.columns.firsts self.new.columns.ends self.new.count self.new.span }
    {
        let many = (triangles.count() - from).min(16);
        let having = bounds.rows.having(from, row);
        let mut next = 0;
        while let Some(bit) = next_bit(having, next) {
            if many <= bit {
                return;
            }
            let number = from + bit;
            let columns = canvas.reached(row, triangles, number, bounds.columns.span(number));
            self.push(number, columns);
            next = bit + 1;
        }
    }

    /// Makes it the list of those of the triangles that can meet a sample of the tile row.
    pub(crate) fn set<T: Triangles>(
        &mut self,
        canvas: &Canvas,
        row: u32,
        triangles: &T,
        bounds: &Bounds<N>,
    )
        requires row { row < rows_of canvas.now }
        requires few { length (T.listed triangles.now) ≤ N }
        requires bounds { AreBounds (T.listed triangles.now) (length (T.listed triangles.now)) bounds.now.columns.firsts
            bounds.now.columns.ends bounds.now.rows.firsts bounds.now.rows.ends bounds.now.span }
        ensures row { AreOfRow (T.listed triangles.now) canvas.now row (length (T.listed triangles.now))
            self.new.numbers self.new.columns.firsts self.new.columns.ends self.new.count self.new.span }
    {
        self.count = 0;
        self.span = NOWHERE;
        let mut from = 0;
        while from < triangles.count() {
            self.add_some(canvas, row, triangles, bounds, from);
            from += 16;
        }
    }
}
