ghost use Rattle.std.specs.Prelude.{◌≡◌, ◌↔◌, IsSome, IfSome};
ghost use Rattle.grid.specs.Position.{IsInGuardBand};
ghost use Rattle.polygons.specs.Rings.{position_of};

use grid::Point;

/// A corner of a ring in 1/256 pixel, laid out as in C.
#[repr(C)]
#[derive(Clone, Copy, Debug, PartialEq, Eq)]
pub struct Corner {
    /// The distance from the screen's left border: -8388608 to 8388607.
    pub x: i32,
    /// The distance from the screen's upper border: -8388608 to 8388607.
    pub y: i32,
}

impl Corner {
    /// Where the corner lies, or `None` if it is outside of the guard band.
    pub fn point(&self) -> Option<Point>
        ensures some { IsSome result ↔ IsInGuardBand (position_of self.now) }
        ensures value { IfSome result (λ p. p ≡ position_of self.now) }
    {
        Point::new(self.x, self.y)
    }

    /// Where a corner of the guard band lies.
    #[inline(always)]
    pub(crate) fn at(&self) -> Point
        requires { IsInGuardBand (position_of self.now) }
        ensures { result ≡ position_of self.now }
    {
        self.point().unwrap()
    }
}
