//! The first crossed sample of an edge in each row that it runs through.
ghost use Rattle.std.specs.Prelude.{◌≡◌, ℕ, ◌+◌, ◌^◌, ◌<◌, ◌≤◌, pos, ◌+ℤ◌, ◌-ℤ◌, ◌*ℤ◌, ◌<ℤ◌, slice_index_or};
ghost use Rattle.std.specs.Int.{int_div_euclid, int_rem_euclid};
ghost use Rattle.grid.specs.Bounds.{IsWithin};
ghost use Rattle.grid.specs.Samples.{parts_of};
ghost use Rattle.polygons.specs.Walking.{if_below, IsSmallStep, IsDescent, IsWalked, IsNextRow};

use crate::divide::{divide, divide_near};
use crate::edge::Edge;
use crate::slope::Slope;
use crate::starts::Starts;
use crate::strip::{Strip, point_at};
use grid::{Point, side};
use std::simd::prelude::*;

/// How many columns left of `start` an edge is first crossed there, by how many it goes right in a row, rounded down. It
/// is right or one too large less than a pixel above the upper end.
#[inline(always)]
fn guess_left(edge: &Edge, start: Point, columns: i64) -> i64
    requires { IsWithin (2 ^ 25) columns }
    ensures { IsWithin (2 ^ 25) result }
{
    let down = i64::from(start.y() - edge.a.y());
    let right = i64::from(start.x() - edge.a.x());
    let (left, _) = divide(right - down * columns, 256);
    (left + 1).clamp(-33_554_432, 33_554_432)
}

/// The number if `rest` is below 0, else 0. The compiler makes no jump of it, which would be foreseen half of the time.
#[inline(always)]
fn if_negative(rest: i64, number: i64) -> i64
    ensures { result ≡ if_below rest number }
{
    if rest < 0 { number } else { 0 }
}

/// An edge that runs downwards, as it is seen from the upper left corner of the pixel in column 0 of a strip and in the row
/// of pixels in which the edge begins, or in the first row. From there on it is found for all samples with no division.
#[derive(Clone, Copy, Debug)]
pub(crate) struct Descent {
    pub edge: Edge,
    /// The row of the corner.
    pub first: usize,
    /// The row from which on the edge has ended.
    pub end: usize,
    pub height: i64,
    /// How many columns the edge goes right from row to row, and what it goes right besides as a part of its height.
    pub columns: i64,
    pub part: i64,
    /// The first column whose corner is crossed, and the edge function there, by its absolute value.
    pub column: i64,
    pub above: i64,
}

impl Descent {
    /// The edge in the rows of a strip.
    #[inline(always)]
    pub(crate) fn of(edge: Edge, strip: &Strip) -> Descent
        requires { edge.a.y <ℤ edge.b.y }
        ensures edge { result.edge ≡ edge }
        ensures descent { IsDescent strip.now result }
    {
        let begin = strip.row.max(edge.a.y().div_euclid(256));
        let corner = point_at(256 * strip.column, 256 * begin);
        let slope = Slope::of(&edge);
        let height = i64::from(edge.b.y() - edge.a.y());
        let near = guess_left(&edge, corner, slope.columns);
        let (left, above) = divide_near(-side(edge.a, edge.b, corner), 256 * height, near);
        Descent {
            edge,
            first: (begin - strip.row) as usize,
            end: (edge.b.y().div_euclid(256) + 1 - strip.row).clamp(0, 64) as usize,
            height,
            columns: slope.columns,
            part: slope.part,
            column: -left,
            above,
        }
    }

    /// How far left of the place to which the edge would go from the corner by whole columns a sample lies. It is given by
    /// how far its pixel ends right of it and below it.
    #[inline(always)]
    fn behind(&self, right: u16, below: u16) -> i64
        requires step { IsSmallStep self.now }
        requires right { right ≤ 32768 }
        requires below { below ≤ 32768 }
        ensures value { result ≡ (pos 256 -ℤ pos below) *ℤ self.now.columns -ℤ (pos 256 -ℤ pos right) }
        ensures size { IsWithin (2 ^ 42) result }
    {
        (256 - i64::from(below)) * self.columns - (256 - i64::from(right))
    }

    /// The opposite of the edge function at the sample as many whole pixels further right as `behind` has. Below 0 that
    /// sample is not crossed yet: the first one is at most two columns further.
    #[inline(always)]
    fn before(&self, behind: i64, below: u16) -> i64
        requires step { IsSmallStep self.now }
        requires above { IsWithin (2 ^ 34) self.now.above }
        requires below { below ≤ 32768 }
        ensures value { result ≡ (self.now.above -ℤ self.now.height *ℤ int_rem_euclid behind (pos 256))
            -ℤ self.now.part *ℤ (pos 256 -ℤ pos below) }
        ensures size { IsWithin (2 ^ 43) result }
    {
        self.above - self.height * behind.rem_euclid(256) - self.part * (256 - i64::from(below))
    }

    /// The same one column further, if the number is below 0.
    #[inline(always)]
    fn after(&self, number: i64) -> i64
        requires step { IsSmallStep self.now }
        requires number { IsWithin (2 ^ 44) number }
        ensures value { result ≡ number +ℤ if_below number (pos 256 *ℤ self.now.height) }
        ensures size { IsWithin (2 ^ 45) result }
    {
        number + if_negative(number, 256 * self.height)
    }

    /// The first column at which the edge is crossed.
    #[inline(always)]
    fn place(&self, behind: i64, before: i64, after: i64) -> i64
        requires column { IsWithin (2 ^ 50) self.now.column }
        requires behind { IsWithin (2 ^ 42) behind }
        ensures value { result ≡ ((self.now.column +ℤ int_div_euclid behind (pos 256)) +ℤ if_below before (pos 1))
            +ℤ if_below after (pos 1) }
        ensures size { IsWithin (2 ^ 51) result }
    {
        self.column + behind.div_euclid(256) + if_negative(before, 1) + if_negative(after, 1)
    }

    /// What is left of the edge function there.
    #[inline(always)]
    fn rest(&self, after: i64) -> i64
        requires step { IsSmallStep self.now }
        requires after { IsWithin (2 ^ 44) after }
        ensures value { result ≡ int_div_euclid (after +ℤ if_below after (pos 256 *ℤ self.now.height)) (pos 256) }
        ensures size { IsWithin (2 ^ 51) result }
    {
        self.after(after).div_euclid(256)
    }
}

/// The first columns of one row at which an edge is crossed by the samples of a part, and what is left of the edge there.
/// Numbers for samples that a pixel does not have are of no use.
#[derive(Clone, Copy, Debug)]
pub(crate) struct PartWalk {
    pub columns: [i64; 4],
    pub rests: [i64; 4],
}

impl PartWalk {
    /// The walk in its first row. Each step is taken for all four samples before the next one, so that the compiler
    /// takes them at once.
    #[inline(always)]
    pub(crate) fn new(descent: &Descent, starts: &Starts, part: usize) -> PartWalk
        requires descent { IsDescent starts.now.strip descent.now }
        requires part { part < parts_of starts.now.strip.count }
        ensures { IsWalked starts.now.strip part descent.now descent.now.first result }
    {
        let from = 4 * part;
        let (right, below) = (&starts.right, &starts.below);
        let behind_0 = descent.behind(right[from], below[from]);
        let behind_1 = descent.behind(right[from + 1], below[from + 1]);
        let behind_2 = descent.behind(right[from + 2], below[from + 2]);
        let behind_3 = descent.behind(right[from + 3], below[from + 3]);
        let before_0 = descent.before(behind_0, below[from]);
        let before_1 = descent.before(behind_1, below[from + 1]);
        let before_2 = descent.before(behind_2, below[from + 2]);
        let before_3 = descent.before(behind_3, below[from + 3]);
        let after_0 = descent.after(before_0);
        let after_1 = descent.after(before_1);
        let after_2 = descent.after(before_2);
        let after_3 = descent.after(before_3);
        PartWalk {
            columns: [
                descent.place(behind_0, before_0, after_0),
                descent.place(behind_1, before_1, after_1),
                descent.place(behind_2, before_2, after_2),
                descent.place(behind_3, before_3, after_3),
            ],
            rests: [
                descent.rest(after_0),
                descent.rest(after_1),
                descent.rest(after_2),
                descent.rest(after_3),
            ],
        }
    }

    /// The walk in the row below.
    #[inline(always)]
    pub(crate) fn next(&self, descent: &Descent) -> PartWalk
        requires step { IsSmallStep descent.now }
        requires columns { (s : ℕ) → s < 4 → IsWithin (2 ^ 52) (slice_index_or self.now.columns s (pos 0)) }
        requires rests { (s : ℕ) → s < 4 → IsWithin (2 ^ 52) (slice_index_or self.now.rests s (pos 0)) }
        ensures { (s : ℕ) → s < 4 → IsNextRow descent.now (slice_index_or self.now.columns s (pos 0))
            (slice_index_or self.now.rests s (pos 0)) (slice_index_or result.columns s (pos 0))
            (slice_index_or result.rests s (pos 0)) }
    {
        let less = i64x4::from_array(self.rests) - i64x4::splat(descent.part);
        let is_over = less.simd_lt(i64x4::splat(0));
        let below = i64x4::from_array(self.columns) + i64x4::splat(descent.columns);
        let columns = below + is_over.select(i64x4::splat(1), i64x4::splat(0));
        let rests = less + is_over.select(i64x4::splat(descent.height), i64x4::splat(0));
        PartWalk {
            columns: columns.to_array(),
            rests: rests.to_array(),
        }
    }
}
