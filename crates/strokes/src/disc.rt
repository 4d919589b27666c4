ghost use Rattle.std.specs.Prelude.{◌≡◌, ◌↔◌, ◌≤◌, ◌^◌, ◌*◌, pos, ◌-ℤ◌, ◌*ℤ◌, IsTrue};
ghost use Rattle.grid.specs.Bounds.{IsWithin};
ghost use Rattle.strokes.specs.Disc.{DiscCovers};

use crate::border::line_bound;
use crate::line::Line;
use crate::segment::dot;
use grid::Point;

/// Whether the disc around `center` covers `p`. The width is the diameter, in 1/256 pixel.
pub fn disc_covers(center: Point, width: u32, p: Point) -> bool
    requires width { width ≤ 2 ^ 20 }
    ensures { IsTrue result ↔ DiscCovers center width p }
{
    let bound = line_bound(square(width), p.x() < center.x());
    let distance = 4 * dot(center, p, p);
    distance <= bound
}

/// The square of a width.
fn square(width: u32) -> i64
    requires width { width ≤ 2 ^ 20 }
    ensures value { result ≡ pos (width * width) }
    ensures size { IsWithin (2 ^ 40) result }
{
    let square = u64::from(width) * u64::from(width);
    square as i64
}

/// The square of a distance.
fn squared(distance: i32) -> i64
    requires { IsWithin (2 ^ 25) distance }
    ensures value { result ≡ distance *ℤ distance }
    ensures size { IsWithin (2 ^ 50) result }
{
    let distance = i64::from(distance);
    distance * distance
}

/// A disc with a center and a diameter.
#[derive(Clone, Copy, Debug)]
pub(crate) struct Disc {
    pub(crate) center: Point,
    /// The diameter, in 1/256 pixel.
    pub(crate) width: u32,
    pub(crate) ghost small: { width ≤ 2 ^ 20 },
}

impl Disc {
    /// The square of the diameter, less that of twice the distance from the center's height.
    pub(crate) fn rest(&self, y: i32) -> i64
        requires { IsWithin (2 ^ 24) y }
        ensures value { result ≡ pos (self.now.width * self.now.width) -ℤ pos 4 *ℤ ((y -ℤ self.now.center.y) *ℤ (y -ℤ self.now.center.y)) }
        ensures size { IsWithin (2 ^ 53) result }
    {
        square(self.width) - 4 * squared(y - self.center.y())
    }

    /// The side of a vertical line up to this far from the center: to its right by 1, to its left by -1.
    pub(crate) fn edge(&self, x: i32, bound: i64) -> Line
        requires x { IsWithin 1 x }
        requires bound { IsWithin (2 ^ 50) bound }
        ensures from { result.from ≡ self.now.center }
        ensures x { result.x ≡ x }
        ensures y { result.y ≡ pos 0 }
        ensures bound { result.bound ≡ bound }
    {
        Line {
            from: self.center,
            x,
            y: 0,
            bound,
        }
    }
}
