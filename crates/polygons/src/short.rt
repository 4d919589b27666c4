//! Edges that are less than a pixel wide and at most a pixel high, as most of contours, coasts and letters are. Each
//! runs through at most one row of each sample, and its column there is found without a division.
ghost use Rattle.std.specs.Prelude.{◌↔◌, pos, ◌+ℤ◌, ◌≤ℤ◌, ◌<ℤ◌, IsTrue};
ghost use Rattle.grid.specs.Position.{IsInBand};
ghost use Rattle.polygons.specs.Short.{IsShortEdge};

use crate::edge::Edge;

/// Whether both coordinates are at most a pixel apart.
#[inline(always)]
fn is_near(a: i32, b: i32) -> bool
    requires a { IsInBand a }
    requires b { IsInBand b }
    ensures { IsTrue result ↔ ((b ≤ℤ (a +ℤ pos 256)) × (a ≤ℤ (b +ℤ pos 256))) }
{
    let distance = b - a;
    -256 <= distance && distance <= 256
}

/// Whether both coordinates are less than a pixel apart.
#[inline(always)]
fn is_nearer(a: i32, b: i32) -> bool
    requires a { IsInBand a }
    requires b { IsInBand b }
    ensures { IsTrue result ↔ ((b <ℤ (a +ℤ pos 256)) × (a <ℤ (b +ℤ pos 256))) }
{
    let distance = b - a;
    -256 < distance && distance < 256
}

/// Whether the edge is less than a pixel wide and at most a pixel high.
#[inline(always)]
pub(crate) fn is_short(edge: &Edge) -> bool
    ensures { IsTrue result ↔ IsShortEdge edge.now }
{
    is_nearer(edge.a.x(), edge.b.x()) && is_near(edge.a.y(), edge.b.y())
}
