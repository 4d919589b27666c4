//! Cells that share edges.
ghost use Rattle.std.specs.Prelude.{◌≡◌, ◌^◌, ◌<◌, List, map, length};
ghost use Rattle.std.specs.List.{All};
ghost use Rattle.polygons.specs.Partition.{covering, IsOutline, IsFitted, HasParityOf, WindForwards, IsPartition};
ghost use Rattle.polygons.specs.declared.edge.Edge.{Edge};

use crate::edge::Edge;
use crate::laws::edges_cover;
use crate::rule::Rule;
use grid::Point;

/// How many of the cells cover `p`, by the rule. By the even-odd rule this number has the parity of the cells' outline,
/// for any cells. If cells that share an edge have it in opposite directions and none winds backwards, `p` is inside of
/// exactly one cell if the outline winds around it once.
///
/// A corner of a cell may lie on an edge of its neighbour or of the outline (a T-junction): it cuts the edge into two
/// parts, which count as the edge does. If it lies beside the edge, the same holds of each `p` that the triangle
/// between the edge and its parts does not cover.
pub fn count_covering(cells: &[&[Edge]], rule: Rule, p: Point) -> usize
    requires { All (λ edges. length edges.now < 2 ^ 32) cells.now }
    ensures count { result ≡ covering rule (map (λ edges. edges.now) cells.now) p }
    ensures parity { (outline : List Edge) → IsOutline outline (map (λ edges. edges.now) cells.now) p →
        HasParityOf outline (map (λ edges. edges.now) cells.now) p }
    ensures partition { (outline : List Edge) → IsFitted outline (map (λ edges. edges.now) cells.now) p →
        WindForwards (map (λ edges. edges.now) cells.now) p →
        IsPartition rule outline (map (λ edges. edges.now) cells.now) p }
{
    let mut count = 0;
    for edges in cells {
        if edges_cover(edges, rule, p) {
            count += 1;
        }
    }
    count
}
