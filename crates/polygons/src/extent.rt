//! The box of a polygon's corners.
ghost use Rattle.std.specs.Prelude.{◌≡◌, map, IsTrue};
ghost use Rattle.grid.specs.Position.{Position, IsInGuardBand};
ghost use Rattle.polygons.specs.declared.extent.Extent.{Extent as Box};
ghost use Rattle.polygons.specs.Rings.{position_of, nothing, IsInClosedExtent, IsExtentWithin, IsLeastExtent};

use crate::corner::Corner;
use grid::Point;

/// A box on the screen in 1/256 pixel, with coordinates from `left` and `top` to before `right` and `bottom`, laid out as
/// in C.
#[repr(C)]
#[derive(Clone, Copy, Debug, PartialEq, Eq)]
pub struct Extent {
    pub left: i32,
    pub top: i32,
    pub right: i32,
    pub bottom: i32,
}

/// The box of no corners.
pub(crate) const NOTHING: Extent = Extent {
    left: i32::MAX,
    top: i32::MAX,
    right: i32::MIN,
    bottom: i32::MIN,
};

impl Extent {
    /// The box of some corners.
    pub(crate) fn of(corners: &[Corner]) -> Extent
        ensures { IsLeastExtent result (map position_of corners.now) }
    {
        let mut extent = NOTHING;
        for corner in corners {
            extent = extent.with(corner);
        }
        extent
    }

    /// Whether two opposite corners of the box, and so all of it, are inside of the guard band.
    pub(crate) fn is_in_band(&self) -> bool
        ensures { IsTrue result → (p : Position) → IsInClosedExtent self.now p → IsInGuardBand p }
    {
        Point::new(self.left, self.top).is_some() && Point::new(self.right, self.bottom).is_some()
    }

    /// The box that holds both.
    pub(crate) fn joined(self, other: &Extent) -> Extent
        ensures first { (p : Position) → IsInClosedExtent self p → IsInClosedExtent result p }
        ensures second { (p : Position) → IsInClosedExtent other.now p → IsInClosedExtent result p }
    {
        Extent {
            left: self.left.min(other.left),
            top: self.top.min(other.top),
            right: self.right.max(other.right),
            bottom: self.bottom.max(other.bottom),
        }
    }

    /// The box with one corner more.
    #[inline(always)]
    pub(crate) fn with(self, corner: &Corner) -> Extent
        ensures corner { IsInClosedExtent result (position_of corner.now) }
        ensures others { (p : Position) → IsInClosedExtent self p → IsInClosedExtent result p }
        ensures first { self ≡ nothing → (f : Box) → IsInClosedExtent f (position_of corner.now) → IsExtentWithin result f }
        ensures least { (f : Box) → IsExtentWithin self f → IsInClosedExtent f (position_of corner.now) →
            IsExtentWithin result f }
    {
        Extent {
            left: self.left.min(corner.x),
            top: self.top.min(corner.y),
            right: self.right.max(corner.x),
            bottom: self.bottom.max(corner.y),
        }
    }
}
