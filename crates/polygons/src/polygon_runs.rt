//! Runs of polygons and their boxes. A run whose box lies beside what is drawn is passed over without a look at its
//! corners.
ghost use Rattle.std.specs.Prelude.{ℕ, ◌≡◌, ◌*◌, ◌^◌, ◌<◌, ◌≤◌, length, map};
ghost use Rattle.std.specs.List.{All};
ghost use Rattle.polygons.specs.Rings.{position_of, IsInClosedExtent};

use crate::arrays::first_corner;
use crate::corner::Corner;
use crate::extent::{Extent, NOTHING};

/// How many runs there are.
const RUNS: usize = 64;

/// Runs of equally many polygons, one behind another, and the box of each. The last ones may be shorter or empty.
#[derive(Clone, Copy, Debug)]
pub(crate) struct PolygonRuns {
    length: usize,
    boxes: [Extent; 64],
    pub ghost some: { 0 < length },
    pub ghost short: { length ≤ 2 ^ 57 },
}

impl PolygonRuns {
    ghost use Rattle.polygons.specs.Arrays.{AreParts};
    ghost use Rattle.polygons.specs.PolygonRuns.{run_box, HoldsPolygons};

    /// Runs that are not used.
    pub(crate) fn none() -> PolygonRuns {
        PolygonRuns {
            length: 1,
            boxes: [NOTHING; RUNS],
        }
    }

    /// The runs of these polygons, and a box that holds all corners.
    pub(crate) fn of(
        corners: &[Corner],
        ring_ends: &[u32],
        polygon_ends: &[u32],
    ) -> (PolygonRuns, Extent)
        requires rings { AreParts ring_ends.now (length corners.now) }
        requires polygons { AreParts polygon_ends.now (length ring_ends.now) }
        ensures enough { length polygon_ends.now ≤ 64 * result.0.length }
        ensures held { HoldsPolygons result.0 corners.now ring_ends.now polygon_ends.now }
        ensures corners { All (IsInClosedExtent result.1) (map position_of corners.now) }
    {
        let count = polygon_ends.len();
        let length = count.div_ceil(RUNS).max(1);
        let mut boxes = [NOTHING; RUNS];
        let mut all = NOTHING;
        let mut polygon = 0;
        let mut corner = 0;
        for run in 0..RUNS {
            polygon = (polygon + length).min(count);
            let behind = first_corner(ring_ends, polygon_ends, polygon);
            let extent = Extent::of(&corners[corner..behind]);
            boxes[run] = extent;
            all = all.joined(&extent);
            corner = behind;
        }
        (PolygonRuns { length, boxes }, all)
    }

    /// The box of the run of the polygon of this number, and the number behind the last one that the run can have.
    pub(crate) fn run_of(&self, number: usize) -> (Extent, usize)
        requires { number < 64 * self.now.length }
        ensures after { number < result.1 }
        ensures same { (k : ℕ) → number ≤ k → k < result.1 → run_box self.now k ≡ result.0 }
    {
        let run = number / self.length;
        (self.boxes[run], (run + 1) * self.length)
    }
}
