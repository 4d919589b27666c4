ghost use Rattle.std.specs.Prelude.{slice_index};
ghost use Rattle.grid.specs.Triangle.{Covers};
ghost use Rattle.shade.specs.Value.{IsValueAt};

use crate::weights::Weights;
use grid::{Point, Tri};

/// The value at a covered point of what is `v` at the triangle's vertices: the mean of `v` by the sizes of the edge
/// function of the opposite edges there, rounded down (the rounding is this project's rule). For several values at one
/// point use `Weights`.
pub fn floor_at(t: &Tri, p: Point, v: [u16; 3]) -> u16
    requires { Covers t.now.a t.now.b t.now.c p }
    ensures { IsValueAt t.now.a t.now.b t.now.c p (slice_index v 0) (slice_index v 1) (slice_index v 2) result }
{
    Weights::at(t, p).value(v)
}
