//! Laws of polygons. Each function computes what its law speaks of.
ghost use Rattle.std.specs.Prelude.{◌≡◌, ◌↔◌, ◌++◌, ◌^◌, ◌<◌, [], ◌∷◌, List, length, IsTrue};
ghost use Rattle.grid.specs.Triangle.{Covers};
ghost use Rattle.grid.specs.Quad.{QuadCovers};
ghost use Rattle.grid.specs.Position.{Position};
ghost use Rattle.polygons.specs.Crossing.{downs, ups, is_inside, IsInside};
ghost use Rattle.polygons.specs.Laws.{CrossingsAdd, SharedEdgesCancel, MovesAlong};
ghost use Rattle.polygons.specs.Junctions.{HaveSameParts};
ghost use Rattle.polygons.specs.Polygon.{PolygonCovers};
ghost use Rattle.polygons.specs.declared.edge.Edge.{Edge};

use crate::crossings::{Crossings, count_edges};
use crate::edge::Edge;
use crate::polygon::polygon_covers;
use crate::rule::Rule;
use grid::{Point, Quad};

/// Whether the polygon of three corners covers `p`. By either rule it covers what the triangle covers by the top-left
/// rule (Direct3D 11): in either orientation, and nothing if it has no area.
pub fn triangle_covers(rule: Rule, a: Point, b: Point, c: Point, p: Point) -> bool
    ensures triangle { IsTrue result ↔ Covers a b c p }
    ensures polygon { IsTrue result ↔ PolygonCovers rule ((a ∷ b ∷ c ∷ []) ∷ []) p }
{
    let ring = [a, b, c];
    polygon_covers(&[&ring], rule, p)
}

/// Whether the strictly convex quad covers `p`. The polygon of its four corners covers the same, by either rule.
pub fn quad_covers(rule: Rule, quad: &Quad, p: Point) -> bool
    ensures quad { IsTrue result ↔ QuadCovers quad.now.a quad.now.b quad.now.c quad.now.d p }
    ensures polygon { IsTrue result ↔ PolygonCovers rule ((quad.now.a ∷ quad.now.b ∷ quad.now.c ∷ quad.now.d ∷ []) ∷ [])
        p }
{
    let _rule = rule;
    quad.covers(p)
}

/// Counts the crossings of two lists of edges together. They are the sum of the crossings of each, and so is the
/// winding number.
pub fn count_both(first: &[Edge], second: &[Edge], p: Point) -> Crossings
    requires first { length first.now < 2 ^ 32 }
    requires second { length second.now < 2 ^ 32 }
    ensures downs { result.downs ≡ downs (first.now ++ second.now) p }
    ensures ups { result.ups ≡ ups (first.now ++ second.now) p }
    ensures sum { CrossingsAdd first.now second.now p }
{
    let a = count_edges(first, p);
    let b = count_edges(second, p);
    Crossings {
        downs: a.downs + b.downs,
        ups: a.ups + b.ups,
    }
}

/// Whether `p` is inside of what the edges bound, by the rule. Edges that one polygon has in one direction and its
/// neighbour in the other cancel, by either rule: the two polygons together cover what they would cover without these
/// edges. If all edges and `p` are translated alike, the answer is the same. So it is for edges that have the same
/// parts at `p`, each whole or cut.
pub fn edges_cover(edges: &[Edge], rule: Rule, p: Point) -> bool
    requires { length edges.now < 2 ^ 32 }
    ensures value { IsTrue result ↔ IsInside rule edges.now p }
    ensures truth { result ≡ is_inside rule edges.now p }
    ensures shared { (first shared second : List Edge) → SharedEdgesCancel rule first shared second p }
    ensures moved { (by : Position) → MovesAlong rule by edges.now p }
    ensures parts { (others : List Edge) → HaveSameParts edges.now others p →
        (IsInside rule edges.now p ↔ IsInside rule others p) }
{
    count_edges(edges, p).is_inside(rule)
}
