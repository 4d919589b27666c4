//! The edge functions of a triangle at a point.
ghost use Rattle.std.specs.Prelude.{◌≡◌, ◌≢◌, ◌↔◌, IsSome, IfSome};
ghost use Rattle.checks.specs.Checking.{IsJudged};
ghost use Rattle.c_abi.specs.Calls.{IsStatus};
ghost use Rattle.canvas_c.specs.Weights.{a_of, b_of, c_of, AreInBand, weights_checks, AreEdgesOf, AreEdges};

use c_abi::Status;
use grid::{Point, Tri, side};

/// The corners of a triangle in 1/256 pixel, laid out as in C.
#[repr(C)]
#[derive(Clone, Copy, Debug, PartialEq, Eq)]
pub struct Corners {
    /// The first corner.
    pub ax: i32,
    pub ay: i32,
    /// The second corner.
    pub bx: i32,
    pub by: i32,
    /// The third corner.
    pub cx: i32,
    pub cy: i32,
}

/// The edge functions of a triangle at a point, of the edges across from the first, the second and the third corner,
/// and its doubled area, in 1/65536 square pixel, laid out as in C.
#[repr(C)]
#[derive(Clone, Copy, Debug, PartialEq, Eq)]
pub struct Edges {
    /// Across from the first corner.
    pub a: i64,
    /// Across from the second corner.
    pub b: i64,
    /// Across from the third corner.
    pub c: i64,
    /// The doubled area: positive if the triangle runs clockwise on the screen.
    pub doubled: i64,
    /// 1 if the triangle covers the point, else 0.
    pub covered: u64,
}

/// The triangle with these corners, or `None` if one is outside of the guard band.
fn triangle_of(corners: &Corners) -> Option<Tri>
    ensures some { IsSome result ↔ AreInBand corners.now }
    ensures value { IfSome result (λ t. t ≡
        record { a = a_of corners.now; b = b_of corners.now; c = c_of corners.now }) }
{
    let a = Point::new(corners.ax, corners.ay)?;
    let b = Point::new(corners.bx, corners.by)?;
    let c = Point::new(corners.cx, corners.cy)?;
    Some(Tri::new(a, b, c))
}

/// The edge functions of the triangle at the point.
fn edges_of(triangle: &Tri, point: Point) -> Edges
    ensures { AreEdgesOf triangle.now point result }
{
    Edges {
        a: side(triangle.b, triangle.c, point),
        b: side(triangle.c, triangle.a, point),
        c: side(triangle.a, triangle.b, point),
        doubled: triangle.area2(),
        covered: u64::from(triangle.covers(point)),
    }
}

/// The edge functions of the triangle with these corners at the point (x, y).
fn edges_at(corners: &Corners, x: i32, y: i32) -> Result<Edges, Status>
    ensures judged { IsJudged (weights_checks corners.now (record { x = x; y = y }))
        (AreEdges corners.now (record { x = x; y = y })) result }
{
    let Some(triangle) = triangle_of(corners) else {
        return Err(Status::BadPosition);
    };
    let Some(point) = Point::new(x, y) else {
        return Err(Status::BadPosition);
    };
    Ok(edges_of(&triangle, point))
}

/// Writes the edge functions of a triangle at a point, in 1/256 pixel. They are exact. Returns the status. If it is not
/// 0, nothing is written.
#[unsafe(no_mangle)]
pub extern "C" fn trirast_edges_at_point(
    corners: &Corners,
    x: i32,
    y: i32,
    edges: &mut Edges,
) -> u32
    ensures status { IsStatus (weights_checks corners.now (record { x = x; y = y })) result }
    ensures edges { result ≡ 0 → AreEdges corners.now (record { x = x; y = y }) edges.new }
    ensures kept { result ≢ 0 → edges.new ≡ edges.old }
{
    match edges_at(corners, x, y) {
        Ok(found) => {
            *edges = found;
            0
        }
        Err(failed) => failed.number(),
    }
}
