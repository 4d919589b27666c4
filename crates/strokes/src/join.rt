ghost use Rattle.std.specs.Prelude.{◌≡◌, ◌↔◌, ◌≤◌, ◌^◌, ◌*◌, pos, neg_ℤ, ◌*ℤ◌, IsTrue};
ghost use Rattle.grid.specs.Bounds.{IsWithin};
ghost use Rattle.strokes.specs.Segment.{dot, square_length};
ghost use Rattle.strokes.specs.Join as join;
ghost use Rattle.strokes.specs.Join.{JoinCovers, JoinBounds, IsInWedge, IsInMiter, IsMitered, IsWithinLimit};
ghost use Rattle.strokes.specs.Stroke.{IsLimit};

use crate::disc::disc_covers;
use crate::segment::{dot, is_behind, is_in_strip, square_length};
use grid::Point;

/// What a stroke adds at the corners of a path (SVG 2, stroke-linejoin).
#[derive(Clone, Copy, Debug, PartialEq, Eq)]
pub enum Join {
    /// The part of a disc between both segments.
    Round,
    /// Both segments go on until they meet, if the miter limit allows it: one over the sine of half the angle between
    /// the segments is at most the limit, in eighths (0 to 128). Otherwise the join is round.
    Miter(u8),
}

/// Whether the join at b of a path from a over b to c covers `p`. It covers only points behind b, seen towards a and also
/// towards c. The width is in 1/256 pixel.
pub fn join_covers(join: Join, a: Point, b: Point, c: Point, width: u32, p: Point) -> bool
    requires width { width ≤ 2 ^ 20 }
    requires limit { IsLimit join }
    ensures { IsTrue result ↔ JoinCovers join a b c width p }
{
    is_in_wedge(a, b, c, p) && is_bounded(join, a, b, c, width, p)
}

/// Whether `p` is behind b, seen towards a and also towards c.
fn is_in_wedge(a: Point, b: Point, c: Point, p: Point) -> bool
    ensures { IsTrue result ↔ IsInWedge a b c p }
{
    is_behind(b, a, p) && is_behind(b, c, p)
}

/// Whether `p` is within what bounds the join at the corner abc.
fn is_bounded(join: Join, a: Point, b: Point, c: Point, width: u32, p: Point) -> bool
    requires width { width ≤ 2 ^ 20 }
    requires limit { IsLimit join }
    ensures { IsTrue result ↔ JoinBounds join a b c width p }
{
    if is_mitered(join, a, b, c) {
        is_in_miter(a, b, c, width, p)
    } else {
        disc_covers(b, width, p)
    }
}

/// Whether the strips of the lines ab and bc both have `p`.
fn is_in_miter(a: Point, b: Point, c: Point, width: u32, p: Point) -> bool
    requires width { width ≤ 2 ^ 20 }
    ensures { IsTrue result ↔ IsInMiter a b c width p }
{
    is_in_strip(a, b, width, p) && is_in_strip(b, c, width, p)
}

/// Whether the corner abc has a miter.
pub(crate) fn is_mitered(join: Join, a: Point, b: Point, c: Point) -> bool
    requires { IsLimit join }
    ensures { IsTrue result ↔ IsMitered join a b c }
{
    match join {
        Join::Round => false,
        Join::Miter(limit) => is_within_limit(limit, a, b, c),
    }
}

/// Whether the miter limit, in eighths, allows a miter at the corner abc.
fn is_within_limit(limit: u8, a: Point, b: Point, c: Point) -> bool
    requires { limit ≤ 128 }
    ensures { IsTrue result ↔ IsWithinLimit limit a b c }
{
    signed_square(128 - i128::from(square(limit))) * lengths(a, b, c)
        <= signed_square(weighted_cosine(limit, a, b, c))
}

/// The square of a miter limit.
fn square(limit: u8) -> i64
    requires { limit ≤ 128 }
    ensures value { result ≡ pos (limit * limit) }
    ensures size { IsWithin (2 ^ 14) result }
{
    let square = u64::from(limit) * u64::from(limit);
    square as i64
}

/// The product of the squares of the lengths of ab and bc.
fn lengths(a: Point, b: Point, c: Point) -> i128
    ensures value { result ≡ pos (square_length a b * square_length b c) }
    ensures size { IsWithin (2 ^ 98) result }
{
    let product = u128::from(square_length(a, b)) * u128::from(square_length(b, c));
    product as i128
}

/// The square of the miter limit times the dot product of ab and bc.
fn weighted_cosine(limit: u8, a: Point, b: Point, c: Point) -> i128
    requires { limit ≤ 128 }
    ensures value { result ≡ neg_ℤ (pos (limit * limit) *ℤ dot b a c) }
    ensures size { IsWithin (2 ^ 63) result }
{
    let product = i128::from(square(limit)) * i128::from(dot(b, a, c));
    -product
}

/// A number times its absolute value.
fn signed_square(z: i128) -> i128
    requires { IsWithin (2 ^ 63) z }
    ensures { result ≡ join.signed_square z }
{
    z * z.abs()
}
