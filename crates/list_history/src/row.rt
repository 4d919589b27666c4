//! A row of samples of the picture that is followed through all triangles.
ghost use Rattle.std.specs.Prelude.{◌≡◌, ◌<◌, ◌≤◌, ◌+◌, ℕ, length, IfOk, IsTrue};
ghost use Rattle.grid.specs.Samples.{count_of};
ghost use Rattle.grid.specs.Triangle.{Covers};
ghost use Rattle.history.specs.Samples.{IsOneIf};
ghost use Rattle.list_history.specs.declared.columns.Columns.{Columns};
ghost use Rattle.list_history.specs.Counts.{HoldCovered, IsRowAfter, AreCountsAt, AreCountSums, AreAtMost};

use crate::columns::Columns;
use crate::sample_counts::SampleCounts;
use draw_list::DrawList;
use grid::{Point, Tri, sample_at};
use history::{Followed, SamplePlace};
use std::alloc::{AllocError, Global};

/// Samples `s` of row `py` of the picture. Those in the columns are followed, which hold those that triangle `number`
/// covers.
#[derive(Clone, Copy)]
pub(crate) struct SampleRow<'a> {
    pub(crate) list: &'a DrawList,
    pub(crate) number: usize,
    pub(crate) py: u32,
    pub(crate) s: u32,
    pub(crate) columns: Columns,
    pub ghost is_triangle: { number < length list.now.triangles },
    pub ghost is_row: { py < 4096 },
    pub ghost is_sample: { s < count_of list.now.count },
    pub ghost within: { columns.end ≤ list.now.width },
    pub ghost few: { columns.end ≤ 4096 },
    pub ghost covered: { HoldCovered list.now number columns },
}

/// A row of samples of the picture before all triangles.
fn new_row(alloc: Global, list: &DrawList) -> Result<Vec<Followed>, AllocError>
    ensures row { (n j s : ℕ) (columns : Columns) → IfOk result (λ row. IsRowAfter list.now n j s columns 0 row.items) }
    ensures width { IfOk result (λ row. length row.items ≡ list.now.width) }
{
    vec![in alloc; Followed::new(list.clear()); list.width() as usize]
}

impl SampleRow<'_> {
    /// Returns how many of the row's samples the triangle covers, changes and is shown by.
    pub(crate) fn counts(&self, alloc: Global) -> Result<SampleCounts, AllocError>
        ensures sums { IfOk result (AreCountSums
            (λ i c. AreCountsAt self.now.list.now self.now.number i self.now.py self.now.s c) self.now.list.now.width) }
        ensures at_most { IfOk result (AreAtMost 4096) }
    {
        let mut row = new_row(alloc, self.list)?;
        self.follow(&mut row);
        Ok(self.counts_in(&row))
    }

    /// Follows the row's samples in the columns through all triangles.
    fn follow(&self, row: &mut [Followed])
        requires columns { self.now.columns.end ≤ length row.old }
        requires start { IsRowAfter self.now.list.now self.now.number self.now.py self.now.s self.now.columns 0 row.old }
        ensures { IsRowAfter self.now.list.now self.now.number self.now.py self.now.s self.now.columns
            (length self.now.list.now.triangles) row.new }
    {
        for k in 0..self.list.triangles() {
            self.follow_triangle(k, row);
        }
    }

    /// Follows the row's samples in the columns through triangle `k`. Only those are visited that lie in the triangle's
    /// rows and columns.
    fn follow_triangle(&self, k: usize, row: &mut [Followed])
        requires columns { self.now.columns.end ≤ length row.old }
        requires triangle { k < length self.now.list.now.triangles }
        requires before { IsRowAfter self.now.list.now self.now.number self.now.py self.now.s self.now.columns k row.old }
        ensures { IsRowAfter self.now.list.now self.now.number self.now.py self.now.s self.now.columns (k + 1) row.new }
    {
        let (py, s) = (self.py, self.s);
        let rows = self.list.rows(k);
        if py < u32::from(rows.first) {
            return;
        }
        if u32::from(rows.end) <= py {
            return;
        }
        let triangle = self.list.triangle(k);
        let reached = self.columns.of_triangle(&triangle.tri);
        let count = self.list.count();
        for px in reached.first..reached.end {
            let place = SamplePlace { count, px, py, s };
            let i = px as usize;
            row[i] = row[i].after(&triangle, place, k == self.number);
        }
    }

    /// The counts of the row's samples, which were followed through all triangles in the columns.
    fn counts_in(&self, row: &[Followed]) -> SampleCounts
        requires width { length row.now ≡ self.now.list.now.width }
        requires followed { IsRowAfter self.now.list.now self.now.number self.now.py self.now.s self.now.columns
            (length self.now.list.now.triangles) row.now }
        ensures sums { AreCountSums (λ i c. AreCountsAt self.now.list.now self.now.number i self.now.py self.now.s c)
            self.now.list.now.width result }
        ensures at_most { AreAtMost 4096 result }
    {
        let triangle = self.list.triangle(self.number).tri;
        let count = self.list.count();
        let mut counts = SampleCounts::none();
        for px in 0..self.list.width() {
            let p = sample_at(px, self.py, self.s, count);
            let of_sample = counts_at(&triangle, p, &row[px as usize]);
            counts = counts.and(of_sample);
        }
        counts
    }
}

/// The counts of one sample, at the point `p`, which was followed through all triangles if the triangle covers it.
fn counts_at(triangle: &Tri, p: Point, followed: &Followed) -> SampleCounts
    ensures covered { IsOneIf (Covers triangle.now.a triangle.now.b triangle.now.c p) result.covered }
    ensures changed { IsOneIf (Covers triangle.now.a triangle.now.b triangle.now.c p ×
        IsTrue followed.now.changed) result.changed }
    ensures shown { IsOneIf (Covers triangle.now.a triangle.now.b triangle.now.c p ×
        IsTrue followed.now.shown) result.shown }
    ensures at_most { AreAtMost 1 result }
{
    if !triangle.covers(p) {
        return SampleCounts::none();
    }
    SampleCounts {
        covered: 1,
        changed: u32::from(followed.changed),
        shown: u32::from(followed.shown),
    }
}
