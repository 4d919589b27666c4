ghost use Rattle.std.specs.Prelude.{◌≡◌, ◌≤◌, ◌<◌, ◌^◌, ℕ, ℤ, pos, ◌+ℤ◌, ◌*ℤ◌, slice_index};
ghost use Rattle.grid.specs.Bounds.{IsWithin};
ghost use Rattle.grid.specs.Position.{Position, right_of};
ghost use Rattle.grid.specs.Edge as edge;
ghost use Rattle.shade.specs.Row.{IsChange, IsSplit};

use grid::{Point, Tri};

/// The change of a weighted sum of three values per pixel step to the right, as quotient and remainder of a division by
/// the absolute doubled area. So a value is stepped along a row by additions alone, as by a digital differential
/// analyzer.
#[derive(Clone, Copy, Debug)]
pub(crate) struct Step {
    pub(crate) quotient: i64,
    pub(crate) remainder: u64,
    pub(crate) area: u64,
}

/// How much the edge function of ab changes from a point to the one a pixel to the right.
fn rightward(a: Point, b: Point) -> i64
    ensures stepped { (p : Position) → edge.side a b (right_of p) ≡ edge.side a b p +ℤ result }
    ensures size { IsWithin (2 ^ 32) result }
{
    256 * i64::from(a.y() - b.y())
}

/// A value times a change of an edge function.
fn scaled(value: u16, change: i64) -> i64
    requires { IsWithin (2 ^ 32) change }
    ensures value { result ≡ pos value *ℤ change }
    ensures size { IsWithin (2 ^ 48) result }
{
    i64::from(value) * change
}

/// The sum of three changes.
fn sum_of(first: i64, second: i64, third: i64) -> i64
    requires first { IsWithin (2 ^ 48) first }
    requires second { IsWithin (2 ^ 48) second }
    requires third { IsWithin (2 ^ 48) third }
    ensures value { result ≡ first +ℤ second +ℤ third }
    ensures size { IsWithin (2 ^ 50) result }
{
    first + second + third
}

/// How much the weighted sum of `v` changes from a covered point to the one a pixel to the right, if that is covered
/// too.
fn change(t: &Tri, v: [u16; 3]) -> i64
    ensures change { IsChange t.now.a t.now.b t.now.c (slice_index v 0) (slice_index v 1) (slice_index v 2) result }
    ensures size { IsWithin (2 ^ 50) result }
{
    let first = scaled(v[0], rightward(t.b, t.c));
    let second = scaled(v[1], rightward(t.c, t.a));
    let third = scaled(v[2], rightward(t.a, t.b));
    let sum = sum_of(first, second, third);
    if t.area2() < 0 { -sum } else { sum }
}

/// A change as quotient and remainder of its division by the area.
fn split(change: i64, area: u64) -> Step
    requires some { 0 < area }
    requires bound { area ≤ 2 ^ 48 }
    requires size { IsWithin (2 ^ 50) change }
    ensures { IsSplit change area result }
{
    // Equal values do not change, and need no division.
    if change == 0 {
        return Step {
            quotient: 0,
            remainder: 0,
            area,
        };
    }
    let size = change.unsigned_abs();
    let (quotient, remainder) = ((size / area) as i64, size % area);
    if change >= 0 {
        Step {
            quotient,
            remainder,
            area,
        }
    } else if remainder == 0 {
        Step {
            quotient: -quotient,
            remainder,
            area,
        }
    } else {
        Step {
            quotient: -quotient - 1,
            remainder: area - remainder,
            area,
        }
    }
}

impl Step {
    ghost use Rattle.grid.specs.Triangle.{doubled_area};
    ghost use Rattle.shade.specs.Row.{IsStep};

    /// The step of what is `v` at the vertices of `t`, which has an area.
    pub(crate) fn of(t: &Tri, v: [u16; 3]) -> Step
        requires { ¬ (doubled_area t.now.a t.now.b t.now.c ≡ pos 0) }
        ensures { IsStep t.now.a t.now.b t.now.c (slice_index v 0) (slice_index v 1) (slice_index v 2) result }
    {
        split(change(t, v), t.area2().unsigned_abs())
    }
}
