//! Triangles of the screen, drawn on a canvas that stands anywhere on the screen.
ghost use Rattle.std.specs.Prelude.{◌≡◌, ◌↔◌, ◌<◌, ◌-ℤ◌, map, IsSome, IfSome};
ghost use Rattle.std.specs.List.{All};
ghost use Rattle.grid.specs.Position.{IsInGuardBand};
ghost use Rattle.canvas.specs.Window.{moved_position, moved_state, clamped_to_i32, moved, CanMove};

use grid::{PixelBox, Point, Tri};
use shade::{Placed, State, Triangles};

/// The pixel of the screen at which a canvas has its upper left pixel.
#[derive(Clone, Copy, Debug, PartialEq, Eq)]
pub struct Origin {
    /// Its column, below 0 to the left of the screen.
    pub x: i32,
    /// Its row, below 0 above the screen.
    pub y: i32,
}

/// The number, or the nearest one that has 32 bits.
fn narrowed(number: i64) -> i32
    ensures { result ≡ clamped_to_i32 number }
{
    number.clamp(-2_147_483_648, 2_147_483_647) as i32
}

/// The point as seen from the corner of the origin, or `None` if it is outside of the guard band then.
pub fn seen_point(p: Point, origin: &Origin) -> Option<Point>
    ensures some { IsSome result ↔ IsInGuardBand (moved_position origin.now.x origin.now.y p) }
    ensures value { IfSome result (λ q. q ≡ moved_position origin.now.x origin.now.y p) }
{
    let across = i64::from(p.x()) - 256 * i64::from(origin.x);
    let down = i64::from(p.y()) - 256 * i64::from(origin.y);
    Point::new(narrowed(across), narrowed(down))
}

/// An edge of a rectangle as seen from a pixel, or the nearest number that has 32 bits.
fn seen_edge(edge: i32, pixel: i32) -> i32
    ensures { result ≡ clamped_to_i32 (edge -ℤ pixel) }
{
    edge.saturating_sub(pixel)
}

impl Origin {
    /// The state, with its scissor, as seen from this pixel.
    pub fn seen_state(&self, state: &State) -> State
        ensures { result ≡ moved_state self.now.x self.now.y state.now }
    {
        let scissor = state.scissor;
        State {
            merge: state.merge,
            cull: state.cull,
            sample_mask: state.sample_mask,
            scissor: PixelBox {
                x0: seen_edge(scissor.x0, self.x),
                y0: seen_edge(scissor.y0, self.y),
                x1: seen_edge(scissor.x1, self.x),
                y1: seen_edge(scissor.y1, self.y),
            },
        }
    }

    /// The triangle, with its scissor, as seen from the corner of this pixel, or `None` if a vertex is outside of the
    /// guard band then.
    pub fn seen(&self, triangle: &Placed) -> Option<Placed>
        ensures some { IsSome result ↔ CanMove self.now.x self.now.y triangle.now }
        ensures value { IfSome result (λ t. t ≡ moved self.now.x self.now.y triangle.now) }
    {
        let tri = triangle.tri;
        let a = seen_point(tri.a, self)?;
        let b = seen_point(tri.b, self)?;
        let c = seen_point(tri.c, self)?;
        Some(Placed {
            tri: Tri::new(a, b, c),
            z: triangle.z,
            rgba: triangle.rgba,
            state: self.seen_state(&triangle.state),
        })
    }
}

/// The triangles of a source on the screen, as a canvas sees them whose upper left pixel is the origin: sample s of
/// pixel (i, j) of the canvas is sample s of pixel (i + x, j + y) of the screen (`moves_by_pixels`). Scissors are in
/// pixels of the screen. Samples to the left of the screen and above it are drawn too, each triangle as seen from the
/// origin (`Origin::seen`).
#[derive(Drop)]
pub struct Window<'a, S: Triangles> {
    source: &'a S,
    origin: Origin,
    ghost seen: { All (CanMove origin.x origin.y) (S.listed source.now) },
}

impl<'a, S: Triangles> Window<'a, S> {
    /// The triangles of the source, or `None` if a vertex is outside of the guard band as seen from the origin.
    pub fn new(source: &'a S, origin: Origin) -> Option<Window<'a, S>>
        ensures some { IsSome result ↔ All (CanMove origin.x origin.y) (S.listed source.now) }
        ensures listed { IfSome result (λ window. ⟦<Window<'a, S> as Triangles>⟧.listed window ≡
            map (moved origin.x origin.y) (S.listed source.now)) }
    {
        for number in 0..source.count() {
            if origin.seen(&source.triangle(number)).is_none() {
                return None;
            }
        }
        Some(Window { source, origin })
    }
}

impl<S: Triangles> Triangles for Window<'_, S> {
    ghost listed = { λ s. map (moved s.origin.x s.origin.y) (S.listed s.source.now) };

    #[inline(always)]
    fn count(&self) -> usize {
        self.source.count()
    }

    #[inline(always)]
    fn triangle(&self, number: usize) -> Placed {
        self.origin.seen(&self.source.triangle(number)).unwrap()
    }
}
