ghost use Rattle.std.specs.Prelude.{◌≡◌, ◌↔◌, ◌&&◌, ◌≤ℤ◌, ◌<ℤ◌, pos, IsTrue, int_le, int_lt};
ghost use Rattle.grid.specs.Edge as edge_function;

use grid::{Point, side};

/// An edge of a polygon, from `a` to `b`.
#[derive(Clone, Copy, Debug, PartialEq, Eq)]
pub struct Edge {
    pub a: Point,
    pub b: Point,
}

impl Edge {
    ghost use Rattle.polygons.specs.Crossing.{is_crossed_down, is_crossed_up, CrossesDown, CrossesUp, IsLineAtOrLeft};
    ghost use Rattle.polygons.specs.Laws.{reversed, AreOpposite};
    ghost use Rattle.polygons.specs.Junctions.{IsCrossedAsParts, CountsAsParts, IsInSliver};
    ghost use Rattle.grid.specs.Seam.{IsOnOpenEdge};
    ghost use Rattle.polygons.specs.Cells.{signed};
    ghost use Rattle.polygons.specs.Rows.{direction};
    ghost use Rattle.grid.specs.Position.{Position};

    /// Whether the edge runs downwards past `p`, with its line at or left of `p`. The sign of the edge function says on
    /// which side the line is.
    pub fn crosses_down(&self, p: Point) -> bool
        ensures value { result ≡ is_crossed_down self.now p }
        ensures meaning { IsTrue result ↔ CrossesDown self.now p }
        ensures line { (edge_function.side self.now.a self.now.b p ≤ℤ pos 0) ↔ IsLineAtOrLeft self.now p }
    {
        is_in_range(self.a, self.b, p) && side(self.a, self.b, p) <= 0
    }

    /// Whether the edge runs upwards past `p`, with its line at or left of `p`.
    pub fn crosses_up(&self, p: Point) -> bool
        ensures value { result ≡ is_crossed_up self.now p }
        ensures meaning { IsTrue result ↔ CrossesUp self.now p }
    {
        is_in_range(self.b, self.a, p) && side(self.a, self.b, p) >= 0
    }

    /// The edge in the other direction. It is crossed downwards where this one is crossed upwards, and upwards where
    /// this one is crossed downwards.
    pub fn reversed(&self) -> Edge
        ensures value { result ≡ reversed self.now }
        ensures opposite { (p : Position) → AreOpposite result self.now p }
    {
        Edge {
            a: self.b,
            b: self.a,
        }
    }

    /// The two parts of the edge if it is cut at `q`. If `q` lies on the edge, between its ends, the edge is crossed
    /// wherever one of its parts is, and nowhere else. Wherever `q` lies, the edge counts as much as its parts do at
    /// each point that the triangle between the three does not cover.
    pub fn cut_at(&self, q: Point) -> (Edge, Edge)
        ensures value { result ≡ (record { a = self.now.a; b = q }, record { a = q; b = self.now.b }) }
        ensures on_edge { IsOnOpenEdge self.now.a self.now.b q → (p : Position) → IsCrossedAsParts self.now q p }
        ensures off_edge { (p : Position) → ¬ IsInSliver self.now q p → CountsAsParts self.now q p }
    {
        (Edge { a: self.a, b: q }, Edge { a: q, b: self.b })
    }

    /// The edge, turned downwards if it runs upwards, and whether it was left as it was.
    #[inline(always)]
    pub(crate) fn turned_down(self) -> (Edge, bool)
        ensures runs_down { result.0.a.y ≤ℤ result.0.b.y }
        ensures same { (p : Position) → signed result.1 (direction result.0 p) ≡ direction self p }
    {
        if self.a.y() <= self.b.y() {
            (self, true)
        } else {
            (self.reversed(), false)
        }
    }
}

/// Whether `p` is at the height of `top`, or below it and above `bottom`.
fn is_in_range(top: Point, bottom: Point, p: Point) -> bool
    ensures value { result ≡ (int_le top.y p.y && int_lt p.y bottom.y) }
    ensures meaning { IsTrue result ↔ ((top.y ≤ℤ p.y) × (p.y <ℤ bottom.y)) }
{
    top.y() <= p.y() && p.y() < bottom.y()
}
