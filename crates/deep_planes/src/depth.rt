ghost use Rattle.std.specs.Prelude.{◌≡◌, ◌<◌, ◌≤◌, ◌*◌, ◌^◌, slice_index};
ghost use Rattle.std.specs.Int.RustNames.{unsigned_abs};
ghost use Rattle.grid.specs.Edge as edge;
ghost use Rattle.grid.specs.Triangle.{Covers};
ghost use Rattle.deep_planes.specs.Depth.{IsDepthAt};

use grid::{Point, Tri, side};

/// The absolute value of the edge function of ab at `p`, in 1/65536 square pixel.
fn weight(a: Point, b: Point, p: Point) -> u64
    ensures value { result ≡ unsigned_abs (edge.side a b p) }
    ensures size { result ≤ 2 ^ 48 }
{
    side(a, b, p).unsigned_abs()
}

/// A depth times a weight.
fn weighted(depth: u32, weight: u64) -> u128
    requires { weight ≤ 2 ^ 48 }
    ensures value { result ≡ depth * weight }
    ensures size { result < 2 ^ 80 }
{
    u128::from(depth) * u128::from(weight)
}

/// The depth of 24 bits at a point that the triangle covers, from the 32-bit depths of its vertices.
pub fn depth_at(t: &Tri, p: Point, z: [u32; 3]) -> u32
    requires { Covers t.now.a t.now.b t.now.c p }
    ensures depth { IsDepthAt t.now.a t.now.b t.now.c p (slice_index z 0) (slice_index z 1) (slice_index z 2) result }
    ensures bits { result < 2 ^ 24 }
{
    let [u, v, w] = z;
    let sum = weighted(u, weight(t.b, t.c, p))
        + weighted(v, weight(t.c, t.a, p))
        + weighted(w, weight(t.a, t.b, p));
    let area = u128::from(weight(t.a, t.b, t.c));
    (sum / (256 * area)) as u32
}
