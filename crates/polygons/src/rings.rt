//! The rings of a polygon in a list of corners.
ghost use Rattle.std.specs.Prelude.{◌≡◌, ◌≤◌, ◌^◌, ◌<◌, length};
ghost use Rattle.polygons.specs.Polygon.{polygon_edges};
ghost use Rattle.std.specs.List.{All};
ghost use Rattle.grid.specs.Position.{IsInGuardBand};
ghost use Rattle.polygons.specs.Rings.{AreAscendingEnds, corners_between, end_of};

use crate::corner::Corner;
use crate::extent::Extent;

/// The rings of a polygon: corners, one ring's after another's, and where each ring ends.
#[derive(Clone, Copy, Debug)]
pub struct Rings<'a> {
    /// The corners, also those of other polygons.
    pub corners: &'a [Corner],
    /// The index of the first ring's first corner.
    pub start: u32,
    /// Of each ring the index behind its last corner. The next ring begins there.
    pub ends: &'a [u32],
    pub ghost seen: { All IsInGuardBand (corners_between corners.now start (end_of start ends.now)) },
    pub ghost rising: { AreAscendingEnds start ends.now (length corners.now) },
    pub ghost few: { length corners.now < 2 ^ 32 },
}

impl Rings<'_> {
    ghost use Rattle.polygons.specs.Rings.{rings_from, HoldsInside, IsLeastExtent};

    /// The index behind the last corner.
    pub(crate) fn end(&self) -> u32
        ensures value { result ≡ end_of self.now.start self.now.ends.now }
        ensures within { (self.now.start ≤ result) × (result ≤ length self.now.corners.now) }
    {
        match self.ends {
            [] => self.start,
            [.., last] => *last,
        }
    }

    /// The least box of the corners: by either rule the polygon has nothing inside but in the box.
    pub fn extent(&self) -> Extent
        ensures least { IsLeastExtent result
            (corners_between self.now.corners.now self.now.start (end_of self.now.start self.now.ends.now)) }
        ensures holds { HoldsInside result (polygon_edges (rings_from self.now.corners.now self.now.start self.now.ends.now)) }
    {
        Extent::of(&self.corners[self.start as usize..self.end() as usize])
    }
}
