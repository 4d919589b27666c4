//! Boxes of runs of a polygon's corners. The edges of a run whose box lies beside a strip need not be walked down.
ghost use Rattle.std.specs.Prelude.{◌≡◌, ◌+◌, ◌*◌, ◌^◌, ◌<◌, ◌≤◌, IsTrue};

use crate::apart::is_beside;
use crate::extent::{Extent, NOTHING};
use crate::rings::Rings;
use crate::strip::Strip;

/// How many corners a run has at least. A polygon with no more has no boxes.
const SHORTEST: usize = 64;

/// How many runs a polygon has at most.
const MOST: usize = 1024;

/// The boxes of the runs of a polygon's corners: of each run the box of its corners and of the one behind it.
#[derive(Clone, Copy, Debug)]
pub struct Runs {
    length: usize,
    count: usize,
    boxes: [Extent; 1024],
    pub ghost some: { 0 < length },
    pub ghost short: { length ≤ 2 ^ 32 },
    pub ghost few: { count ≤ 1024 },
}

impl Runs {
    ghost use Rattle.polygons.specs.Apart.{LiesBeside};
    ghost use Rattle.polygons.specs.Runs.{AreRunsOf, box_of};
    ghost use Rattle.polygons.specs.declared.rings.Rings.{Rings as RingsOf};

    /// No boxes, which fit any polygon.
    pub fn none() -> Runs
        ensures { (rings : RingsOf) → AreRunsOf result rings }
    {
        Runs {
            length: SHORTEST,
            count: 0,
            boxes: [NOTHING; 1024],
        }
    }

    /// Takes the boxes of a polygon's runs. It may leave runs without boxes: then all of their edges are walked down, which
    /// costs time alone.
    pub fn measure(&mut self, rings: &Rings<'_>)
        ensures { AreRunsOf self.new rings.now }
    {
        let start = rings.start as usize;
        let end = rings.end() as usize;
        let corners = end - start;
        self.count = 0;
        self.length = corners.div_ceil(MOST).max(SHORTEST);
        if corners <= SHORTEST {
            return;
        }
        let count = corners.div_ceil(self.length);
        for run in 0..count {
            let first = start + run * self.length;
            let behind = (first + self.length + 1).min(end);
            self.boxes[run] = Extent::of(&rings.corners[first..behind]);
        }
        self.count = count;
    }

    /// The run of a corner of the polygon, and how many corners from the polygon's first one on its box can hold.
    #[inline(always)]
    pub(crate) fn run_of(&self, corner: usize) -> (usize, usize)
        requires { corner < 2 ^ 32 }
        ensures begins { result.0 * self.now.length ≤ corner }
        ensures ends { corner + 1 < result.1 }
        ensures held { result.1 ≡ (result.0 + 1) * self.now.length + 1 }
    {
        let run = corner / self.length;
        (run, (run + 1) * self.length + 1)
    }

    /// Whether a run's box is known and lies beside the strip.
    #[inline(always)]
    pub(crate) fn is_beside(&self, run: usize, strip: &Strip, columns: usize) -> bool
        ensures known { IsTrue result → run < self.now.count }
        ensures beside { IsTrue result → LiesBeside (box_of self.now run) strip.now columns }
    {
        run < self.count && is_beside(&self.boxes[run], strip, columns)
    }
}
