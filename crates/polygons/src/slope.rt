ghost use Rattle.std.specs.Prelude.{◌<ℤ◌};
ghost use Rattle.polygons.specs.Columns.{IsSlope};

use crate::divide::divide_short;
use crate::edge::Edge;

/// How many columns an edge goes right from row to row, rounded down, and what it goes right besides as a part of its
/// height.
#[derive(Clone, Copy, Debug)]
pub(crate) struct Slope {
    pub columns: i64,
    pub part: i64,
}

impl Slope {
    /// The slope of an edge that runs downwards.
    pub(crate) fn of(edge: &Edge) -> Slope
        requires { edge.now.a.y <ℤ edge.now.b.y }
        ensures { IsSlope edge.now result }
    {
        let height = edge.b.y() - edge.a.y();
        let (columns, part) = divide_short(edge.b.x() - edge.a.x(), height);
        Slope { columns, part }
    }
}
