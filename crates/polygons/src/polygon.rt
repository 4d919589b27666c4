ghost use Rattle.std.specs.Prelude.{◌≡◌, ◌↔◌, ◌+◌, ◌^◌, ◌<◌, map, length, List, IsTrue};
ghost use Rattle.polygons.specs.Crossing.{downs, ups};
ghost use Rattle.polygons.specs.Polygon.{ring_edges, corner_count, PolygonCovers};
ghost use Rattle.polygons.specs.Junctions.{IsInSliver, HasCornerMore};
ghost use Rattle.polygons.specs.declared.edge.Edge.{Edge};
ghost use Rattle.grid.specs.Position.{Position};

use crate::crossings::Crossings;
use crate::edge::Edge;
use crate::rule::Rule;
use grid::Point;

/// Whether the polygon of these rings covers `p`: every edge is tested, from each corner to the next and from the last
/// to the first. The polygon with a further corner on one of its edges, or beside one, covers `p` as well, unless the
/// triangle between the edge and the corner covers it, which covers nothing if the corner is on the edge's line.
pub fn polygon_covers(rings: &[&[Point]], rule: Rule, p: Point) -> bool
    requires { corner_count (map (λ r. r.now) rings.now) < 2 ^ 32 }
    ensures value { IsTrue result ↔ PolygonCovers rule (map (λ r. r.now) rings.now) p }
    ensures corner { (e : Edge) (q : Position) (more : List (List Position)) → HasCornerMore e q (map (λ r. r.now) rings.now) more → ¬ IsInSliver e q p
        → (PolygonCovers rule (map (λ r. r.now) rings.now) p ↔ PolygonCovers rule more p) }
{
    let mut counts = Crossings { downs: 0, ups: 0 };
    for ring in rings {
        counts = count_ring(counts, ring, p);
    }
    counts.is_inside(rule)
}

/// The counts with the edges of one more ring.
fn count_ring(counts: Crossings, ring: &[Point], p: Point) -> Crossings
    requires downs { counts.downs + length ring.now < 2 ^ 62 }
    requires ups { counts.ups + length ring.now < 2 ^ 62 }
    ensures downs { result.downs ≡ counts.downs + downs (ring_edges ring.now) p }
    ensures ups { result.ups ≡ counts.ups + ups (ring_edges ring.now) p }
{
    match ring {
        [] => counts,
        [first, rest @ ..] => {
            let mut counts = counts;
            let mut from = *first;
            for to in rest {
                counts = counts.with(Edge { a: from, b: *to }, p);
                from = *to;
            }
            counts.with(Edge { a: from, b: *first }, p)
        }
    }
}
