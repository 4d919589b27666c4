ghost use Rattle.std.specs.Prelude.{◌≡◌, ◌↔◌, ◌+◌, ◌^◌, ◌<◌, ◌≤◌, pos, ◌-ℤ◌, cond, length, IsTrue};
ghost use Rattle.polygons.specs.Crossing.{is_crossed_down, is_crossed_up, downs, ups, IsInsideBy};

use crate::edge::Edge;
use crate::rule::Rule;
use grid::Point;

/// How many edges are crossed at a point, downwards and upwards.
#[derive(Clone, Copy, Debug, PartialEq, Eq)]
pub struct Crossings {
    pub downs: u64,
    pub ups: u64,
}

impl Crossings {
    /// The counts with one more edge.
    pub(crate) fn with(self, edge: Edge, p: Point) -> Crossings
        requires downs { self.downs < 2 ^ 63 }
        requires ups { self.ups < 2 ^ 63 }
        ensures downs { result.downs ≡ self.downs + cond (is_crossed_down edge p) 1 0 }
        ensures ups { result.ups ≡ self.ups + cond (is_crossed_up edge p) 1 0 }
    {
        let downs = self.downs + u64::from(edge.crosses_down(p));
        let ups = self.ups + u64::from(edge.crosses_up(p));
        Crossings { downs, ups }
    }

    /// Whether these counts mean inside, by the rule.
    pub fn is_inside(self, rule: Rule) -> bool
        requires downs { self.downs < 2 ^ 63 }
        requires ups { self.ups < 2 ^ 63 }
        ensures { IsTrue result ↔ IsInsideBy rule (self.downs + self.ups) (pos self.downs -ℤ pos self.ups) }
    {
        match rule {
            Rule::EvenOdd => (self.downs + self.ups) % 2 == 1,
            Rule::NonZero => self.downs != self.ups,
        }
    }
}

/// Counts the edges that are crossed at `p`.
pub fn count_edges(edges: &[Edge], p: Point) -> Crossings
    requires { length edges.now < 2 ^ 32 }
    ensures downs { result.downs ≡ downs edges.now p }
    ensures ups { result.ups ≡ ups edges.now p }
    ensures small { (result.downs ≤ length edges.now) × (result.ups ≤ length edges.now) }
{
    let mut counts = Crossings { downs: 0, ups: 0 };
    for edge in edges {
        counts = counts.with(*edge, p);
    }
    counts
}
