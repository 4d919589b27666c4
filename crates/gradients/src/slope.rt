ghost use Rattle.std.specs.Prelude.{ℕ, pos, ◌≡◌, ◌≤◌, ◌<◌, IsTrue, ◌*◌, ◌^◌, ◌+ℤ◌, ◌-ℤ◌, ◌*ℤ◌, slice_index};
ghost use Rattle.grid.specs.Bounds.{IsWithin};
ghost use Rattle.grid.specs.Position.{IsInBand};

use crate::reciprocal::Reciprocal;
use grid::Tri;

/// An attribute's numerator, which is the attribute times the absolute doubled area: `first` times that area at (x, y),
/// growing by `across` and `down` per 1/256 pixel of x and of y.
#[derive(Clone, Copy, Debug)]
pub struct Slope {
    pub(crate) first: u16,
    pub(crate) x: i32,
    pub(crate) y: i32,
    pub(crate) across: i64,
    pub(crate) down: i64,
}

/// How far `to` is from `from`, times the distance from `start` to `end`.
fn growth(from: u16, to: u16, start: i32, end: i32) -> i64
    requires start { IsInBand start }
    requires end { IsInBand end }
    ensures value { result ≡ (pos to -ℤ pos from) *ℤ (end -ℤ start) }
    ensures size { IsWithin (65535 * 2 ^ 24) result }
{
    let change = i64::from(to) - i64::from(from);
    let distance = i64::from(end - start);
    change * distance
}

impl Slope {
    ghost use Rattle.gradients.specs.Slope.{AreGrowths, IsSlope, IsBounded};
    ghost use Rattle.gradients.specs.Plane.{IsLevel};
    ghost use Rattle.shade.specs.Row.{Are16Bit};

    /// How the sum of the values, each times the edge function of the opposite edge, grows with x and with y.
    fn growths(t: &Tri, values: [u16; 3]) -> (i64, i64)
        ensures growths { AreGrowths t.now.a t.now.b t.now.c (slice_index values 0) (slice_index values 1)
            (slice_index values 2) result.0 result.1 }
        ensures across { IsWithin (65535 * 2 ^ 25) result.0 }
        ensures down { IsWithin (65535 * 2 ^ 25) result.1 }
    {
        let [u, v, w] = values;
        // The edge functions of ca and of ab are 0 at a.
        let across = growth(u, v, t.a.y(), t.c.y()) + growth(u, w, t.b.y(), t.a.y());
        let down = growth(u, v, t.c.x(), t.a.x()) + growth(u, w, t.a.x(), t.b.x());
        (across, down)
    }

    /// The slope of what is `values` at the vertices of `t`, from the first vertex.
    #[inline(always)]
    pub fn of(t: &Tri, values: [u16; 3]) -> Slope
        ensures { IsSlope t.now.a t.now.b t.now.c (slice_index values 0) (slice_index values 1) (slice_index values 2)
            result }
    {
        let (across, down) = Slope::growths(t, values);
        let (first, x, y) = (values[0], t.a.x(), t.a.y());
        if t.area2() < 0 {
            Slope {
                first,
                x,
                y,
                across: -across,
                down: -down,
            }
        } else {
            Slope {
                first,
                x,
                y,
                across,
                down,
            }
        }
    }

    /// The slope of an attribute that is used, and of another one a slope that does not grow.
    #[inline(always)]
    pub fn of_used(used: bool, t: &Tri, values: [u16; 3]) -> Slope
        ensures slope { IsTrue used → IsSlope t.now.a t.now.b t.now.c (slice_index values 0) (slice_index values 1)
            (slice_index values 2) result }
        ensures bounded { IsBounded result }
        ensures small { Are16Bit (slice_index values 0) (slice_index values 1) (slice_index values 2) }
    {
        if used {
            return Slope::of(t, values);
        }
        Slope {
            first: 0,
            x: 0,
            y: 0,
            across: 0,
            down: 0,
        }
    }

    /// Whether the slope is not steep, so that it has a plane with `bits` fractional bits.
    #[inline(always)]
    pub fn is_level(&self, reciprocal: Reciprocal, bits: u32) -> bool
        requires low { 48 ≤ bits }
        requires high { bits ≤ 56 }
        requires bounded { IsBounded self.now }
        ensures { IsTrue result → IsLevel bits reciprocal.area self.now }
    {
        reciprocal.is_level(self.across, bits) && reciprocal.is_level(self.down, bits)
    }
}
