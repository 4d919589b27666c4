ghost use Rattle.std.specs.Prelude.{◌≡◌, pos};
ghost use Rattle.std.specs.Int.RustNames.{unsigned_abs};
ghost use Rattle.grid.specs.Triangle.{doubled_area};

use crate::mode::{Colour, ColourMode, Depth, DepthMode, DrawMode};
use gradients::{ColourPlanes, ColourSlopes, DepthPlane, Reciprocal, Slope};
use shade::Placed;
use std::marker::Model;

/// A triangle made ready to be drawn: how its depth, its colour and its alpha change from pixel to pixel, and which
/// mode of drawing suits it, which are found once for all its samples (attribute setup). Contracts see the triangle.
#[derive(Debug, Drop)]
pub struct Interpolants {
    pub(crate) placed: Placed,
    /// `None` if it is drawn sample by sample, by the definition: a value changes too fast from pixel to pixel for a plane.
    pub(crate) mode: Option<DrawMode>,
    pub(crate) depth: Depth,
    pub(crate) colour: Colour,
}

impl Model for Interpolants {
    ghost use Rattle.shade.specs.declared.placed.Placed.{Placed as Triangle};
    ghost use Rattle.lanes.specs.Mode.{IsReady};

    ghost Value = { Triangle };

    ghost view = { λ i. i.placed };

    ghost invariant = { λ i. IsReady i.placed i.mode i.depth i.colour };
}

/// The doubled area of a triangle that has one, with its reciprocal.
fn reciprocal(placed: &Placed) -> Reciprocal
    requires { ¬ (doubled_area placed.now.tri.a placed.now.tri.b placed.now.tri.c ≡ pos 0) }
    ensures { result.area ≡ unsigned_abs (doubled_area placed.now.tri.a placed.now.tri.b placed.now.tri.c) }
{
    Reciprocal::of(placed.tri.area2().unsigned_abs())
}

impl Interpolants {
    /// A triangle that is drawn sample by sample, in memory for another one that is made ready.
    #[inline]
    pub fn one_by_one(placed: &Placed) -> Interpolants
        ensures { result ≡ placed.now }
    {
        Interpolants {
            placed: *placed,
            mode: None,
            depth: Depth {
                mode: DepthMode::Unused,
                plane: DepthPlane::none(),
            },
            colour: Colour {
                mode: ColourMode::Flat(placed.rgba[0]),
                planes: ColourPlanes::none(),
            },
        }
    }

    /// The interpolants of a triangle that has an area.
    pub fn new(placed: &Placed) -> Interpolants
        requires { ¬ (doubled_area placed.now.tri.a placed.now.tri.b placed.now.tri.c ≡ pos 0) }
        ensures { result ≡ placed.now }
    {
        let mut made = Interpolants::one_by_one(placed);
        made.make(placed);
        made
    }

    /// Makes a triangle that has an area ready, in place of the one before.
    #[inline(never)]
    pub fn make(&mut self, placed: &Placed)
        requires { ¬ (doubled_area placed.now.tri.a placed.now.tri.b placed.now.tri.c ≡ pos 0) }
        ensures { self.new ≡ placed.now }
    {
        self.set(placed, false);
    }

    /// Makes a triangle ready anew of which much was corrected: if its values are found to be whole, nothing is
    /// corrected any more.
    #[cold]
    #[inline(never)]
    pub fn raise(&mut self)
        requires { ¬ (doubled_area self.old.tri.a self.old.tri.b self.old.tri.c ≡ pos 0) }
        ensures { self.new ≡ self.old }
    {
        let placed = self.placed;
        self.set(&placed, true);
    }

    /// Makes a triangle that has an area ready. If `search` is set, whole values are searched for. It is written where
    /// it is kept: a result would be written twice.
    #[inline(always)]
    fn set(&mut self, placed: &Placed, search: bool)
        requires { ¬ (doubled_area placed.now.tri.a placed.now.tri.b placed.now.tri.c ≡ pos 0) }
        ensures { self.new ≡ placed.now }
    {
        let (depth, colour) = (DepthMode::of(placed), ColourMode::of(placed));
        let (by_plane, by_planes) = (depth.is_by_plane(), colour.is_by_planes());
        let merge = &placed.state.merge;
        if !by_plane && !by_planes {
            *self = Interpolants {
                placed: *placed,
                mode: Some(DrawMode::of(merge)),
                depth: Depth {
                    mode: depth,
                    plane: DepthPlane::none(),
                },
                colour: Colour {
                    mode: colour,
                    planes: ColourPlanes::none(),
                },
            };
            return;
        }
        let reciprocal = reciprocal(placed);
        let depth_slope = Slope::of_used(by_plane, &placed.tri, placed.z);
        let slopes = ColourSlopes::of_used(by_planes, placed);
        if !depth_slope.is_level(reciprocal, 48) || !slopes.are_level(reciprocal) {
            *self = Interpolants::one_by_one(placed);
            return;
        }
        *self = Interpolants {
            placed: *placed,
            mode: Some(DrawMode::of(merge)),
            depth: Depth {
                mode: depth,
                plane: DepthPlane::of_used(by_plane, &depth_slope, reciprocal, search),
            },
            colour: Colour {
                mode: colour,
                planes: ColourPlanes::of_used(by_planes, &slopes, reciprocal, search),
            },
        };
    }

    /// The triangle.
    pub fn placed(&self) -> &Placed
        ensures { result.now ≡ self.now }
    {
        &self.placed
    }
}
