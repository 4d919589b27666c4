ghost use Rattle.std.specs.Prelude.{◌≤◌};
ghost use Rattle.list_history.specs.Counts.{HoldColumns};

use cover::Setup;
use grid::{Cull, Tri};

/// Columns of pixels, from `first` to before `end`.
#[derive(Clone, Copy, Debug, PartialEq, Eq)]
pub(crate) struct Columns {
    pub(crate) first: u32,
    pub(crate) end: u32,
}

impl Columns {
    /// Those of these columns in which the triangle may cover a sample.
    pub(crate) fn of_triangle(self, triangle: &Tri) -> Columns
        ensures first { self.first ≤ result.first }
        ensures end { result.end ≤ self.end }
        ensures all { HoldColumns triangle.now self result }
    {
        let Some(setup) = Setup::new(triangle, Cull::None) else {
            return Columns {
                first: self.first,
                end: 0,
            };
        };
        let bounds = setup.bounds();
        Columns {
            first: self.first.max(bounds.x0.max(0) as u32),
            end: self.end.min(bounds.x1.max(0) as u32),
        }
    }
}
