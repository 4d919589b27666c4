ghost use Rattle.std.specs.Prelude.{◌≡◌, ◌*◌, ◌^◌, pos, ◌-ℤ◌, ◌*ℤ◌, IsTrue, slice_index};
ghost use Rattle.std.specs.Int.RustNames.{unsigned_abs};
ghost use Rattle.grid.specs.Bounds.{IsWithin};
ghost use Rattle.grid.specs.Position.{IsInBand};
ghost use Rattle.grid.specs.Triangle.{doubled_area};

use crate::gradient::is_level;
use grid::Tri;

/// A depth's numerator, which is the depth times the absolute doubled area: `first` times that area at (x, y), growing
/// by `across` and `down` per 1/256 pixel of x and of y.
#[derive(Clone, Copy, Debug)]
pub(crate) struct Slope {
    pub(crate) area: u64,
    pub(crate) first: u32,
    pub(crate) x: i32,
    pub(crate) y: i32,
    pub(crate) across: i64,
    pub(crate) down: i64,
}

/// How far `to` is from `from`, times the distance from `start` to `end`.
fn growth(from: u32, to: u32, start: i32, end: i32) -> i64
    requires start { IsInBand start }
    requires end { IsInBand end }
    ensures value { result ≡ (pos to -ℤ pos from) *ℤ (end -ℤ start) }
    ensures size { IsWithin (4294967295 * 2 ^ 24) result }
{
    let change = i64::from(to) - i64::from(from);
    let distance = i64::from(end - start);
    change * distance
}

impl Slope {
    ghost use Rattle.gradients.specs.Slope.{AreGrowths};
    ghost use Rattle.deep_planes.specs.Slope.{Are32Bit, IsDepthSlope, IsLevelDepth};

    /// How the sum of the depths, each times the edge function of the opposite edge, grows with x and with y.
    fn growths(t: &Tri, z: [u32; 3]) -> (i64, i64)
        ensures growths { AreGrowths t.now.a t.now.b t.now.c (slice_index z 0) (slice_index z 1) (slice_index z 2)
            result.0 result.1 }
        ensures across { IsWithin (4294967295 * 2 ^ 25) result.0 }
        ensures down { IsWithin (4294967295 * 2 ^ 25) result.1 }
    {
        let [u, v, w] = z;
        // The edge functions of ca and of ab are 0 at a.
        let across = growth(u, v, t.a.y(), t.c.y()) + growth(u, w, t.b.y(), t.a.y());
        let down = growth(u, v, t.c.x(), t.a.x()) + growth(u, w, t.a.x(), t.b.x());
        (across, down)
    }

    /// The slope of what is `z` at the vertices of `t`, from the first vertex.
    pub(crate) fn of(t: &Tri, z: [u32; 3]) -> Slope
        ensures slope { IsDepthSlope t.now.a t.now.b t.now.c (slice_index z 0) (slice_index z 1) (slice_index z 2) result }
        ensures bits { Are32Bit (slice_index z 0) (slice_index z 1) (slice_index z 2) }
    {
        let (across, down) = Slope::growths(t, z);
        let (first, x, y) = (z[0], t.a.x(), t.a.y());
        let doubled = t.area2();
        let area = doubled.unsigned_abs();
        if doubled < 0 {
            Slope {
                area,
                first,
                x,
                y,
                across: -across,
                down: -down,
            }
        } else {
            Slope {
                area,
                first,
                x,
                y,
                across,
                down,
            }
        }
    }

    /// Whether the slope is not steep, so that it has a plane.
    pub(crate) fn is_level(&self) -> bool
        ensures { IsTrue result → IsLevelDepth self.now }
    {
        is_level(self.across, self.area) && is_level(self.down, self.area)
    }
}
