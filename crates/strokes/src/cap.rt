ghost use Rattle.std.specs.Prelude.{◌↔◌, ◌≤◌, ◌^◌, IsTrue};
ghost use Rattle.grid.specs.Position.{IsInBand};
ghost use Rattle.strokes.specs.Cap.{CapCovers, DotCovers, SquareCovers, IsAcross, IsNearBehind};

use crate::border::{offset_bound, owns};
use crate::disc::disc_covers;
use crate::segment::{difference, dot, is_behind, is_in_strip, square_length};
use grid::Point;

/// What a stroke adds at the ends of a path (SVG 2, stroke-linecap).
#[derive(Clone, Copy, Debug, PartialEq, Eq)]
pub enum Cap {
    /// Nothing: the stroke ends at the end of the path.
    Butt,
    /// Half of a disc.
    Round,
    /// The stroke goes on straight for half its width.
    Square,
}

/// Whether the cap at a, where the path goes on to b, covers `p`. It covers only points behind a, seen towards b. The
/// width is in 1/256 pixel.
pub fn cap_covers(cap: Cap, a: Point, b: Point, width: u32, p: Point) -> bool
    requires width { width ≤ 2 ^ 20 }
    ensures { IsTrue result ↔ CapCovers cap a b width p }
{
    match cap {
        Cap::Butt => false,
        Cap::Round => is_behind(a, b, p) && disc_covers(a, width, p),
        Cap::Square => {
            is_behind(a, b, p) && is_in_strip(a, b, width, p) && is_near_behind(a, b, width, p)
        }
    }
}

/// Whether the stroke of a path of one point covers `p`: it is the cap alone, a disc or a square of this width.
pub fn dot_covers(cap: Cap, center: Point, width: u32, p: Point) -> bool
    requires width { width ≤ 2 ^ 20 }
    ensures { IsTrue result ↔ DotCovers cap center width p }
{
    match cap {
        Cap::Butt => false,
        Cap::Round => disc_covers(center, width, p),
        Cap::Square => square_covers(center, width, p),
    }
}

/// Whether `p` is at most half the width behind a, seen towards b.
fn is_near_behind(a: Point, b: Point, width: u32, p: Point) -> bool
    requires width { width ≤ 2 ^ 20 }
    ensures { IsTrue result ↔ IsNearBehind a b width p }
{
    let is_owned = owns(difference(a.x(), b.x()), difference(a.y(), b.y()));
    let back = -dot(a, b, p);
    back <= offset_bound(width, square_length(a, b), is_owned)
}

/// Whether the square around `center` with horizontal and vertical sides covers `p`.
fn square_covers(center: Point, width: u32, p: Point) -> bool
    requires width { width ≤ 2 ^ 20 }
    ensures { IsTrue result ↔ SquareCovers center width p }
{
    is_across(center.x(), width, p.x()) && is_across(center.y(), width, p.y())
}

/// Whether a coordinate is at most half the width from that of the centre.
fn is_across(center: i32, width: u32, z: i32) -> bool
    requires center { IsInBand center }
    requires width { width ≤ 2 ^ 20 }
    requires z { IsInBand z }
    ensures { IsTrue result ↔ IsAcross center width z }
{
    let double = 2 * (z - center);
    let bound = width as i32;
    -bound <= double && double < bound
}
