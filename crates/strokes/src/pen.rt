ghost use Rattle.std.specs.Prelude.{◌≡◌, ◌↔◌, ◌⊎◌, ◌++◌, [], ◌∷◌, List, None, false, IsTrue};
ghost use Rattle.grid.specs.Position.{Position};
ghost use Rattle.strokes.specs.Path as path;
ghost use Rattle.strokes.specs.Stroke.{IsStyle};
ghost use Rattle.strokes.specs.Walking.{again, CornerCovers, StepCovers, LastCovers, PenCovers};

use crate::cap::{cap_covers, dot_covers};
use crate::join::join_covers;
use crate::segment::segment_covers;
use crate::style::Style;
use grid::Point;

/// A pen on its way along a path.
#[derive(Clone, Copy, Debug, PartialEq, Eq)]
pub(crate) struct Pen {
    /// The point where it came from, which is another than where it is.
    pub(crate) before: Option<Point>,
    pub(crate) at: Point,
    /// Whether a part of the stroke that it drew covers the point in question.
    pub(crate) has_covered: bool,
}

impl Pen {
    /// The pen at the first point of a path.
    pub(crate) fn new(at: Point) -> Pen
        ensures { result ≡ record { before = None; at = at; has_covered = false } }
    {
        Pen {
            before: None,
            at,
            has_covered: false,
        }
    }

    /// The pen after it went through these points.
    pub(crate) fn along(self, points: &[Point], style: Style, p: Point) -> Pen
        requires { IsStyle style }
        ensures { (rest : List Position) → PenCovers style self (points.now ++ rest) p ↔ PenCovers style result rest p }
    {
        let mut pen = self;
        for next in points {
            pen = pen.to(*next, style, p);
        }
        pen
    }

    /// The pen after it went once more round a closed path.
    pub(crate) fn along_again(self, path: &[Point], style: Style, p: Point) -> Pen
        requires { IsStyle style }
        ensures { (rest : List Position) → PenCovers style self (again style path.now ++ rest) p ↔ PenCovers style result rest p }
    {
        if style.is_closed {
            self.along(path, style, p)
        } else {
            self
        }
    }

    /// The pen at the next point of the path.
    fn to(self, next: Point, style: Style, p: Point) -> Pen
        requires { IsStyle style }
        ensures { (rest : List Position) → PenCovers style self (next ∷ rest) p ↔ PenCovers style result rest p }
    {
        if is_same(self.at, next) {
            self
        } else {
            Pen {
                before: Some(self.at),
                at: next,
                has_covered: self.has_covered_at(next, style, p),
            }
        }
    }

    /// Whether the pen has covered `p` when it gets to the next point.
    fn has_covered_at(self, next: Point, style: Style, p: Point) -> bool
        requires { IsStyle style }
        ensures { IsTrue result ↔ (IsTrue self.has_covered ⊎ StepCovers style self.before self.at next p) }
    {
        self.has_covered || self.step_covers(next, style, p)
    }

    /// Whether the segment to the next point covers `p`, or the cap or the join where the pen is.
    fn step_covers(self, next: Point, style: Style, p: Point) -> bool
        requires { IsStyle style }
        ensures { IsTrue result ↔ StepCovers style self.before self.at next p }
    {
        segment_covers(self.at, next, style.width, p) || self.corner_covers(next, style, p)
    }

    /// Whether the cap or the join covers `p` where the pen is and goes on to the next point.
    fn corner_covers(self, next: Point, style: Style, p: Point) -> bool
        requires { IsStyle style }
        ensures { IsTrue result ↔ CornerCovers style self.before self.at next p }
    {
        match self.before {
            None => !style.is_closed && cap_covers(style.cap, self.at, next, style.width, p),
            Some(before) => join_covers(style.join, before, self.at, next, style.width, p),
        }
    }

    /// Whether the stroke covers `p` if the path ends where the pen is.
    pub(crate) fn covers(self, style: Style, p: Point) -> bool
        requires { IsStyle style }
        ensures { IsTrue result ↔ PenCovers style self [] p }
    {
        self.has_covered || self.end_covers(style, p)
    }

    /// Whether the cap where the path ends covers `p`, or the dot that a path of one point is.
    fn end_covers(self, style: Style, p: Point) -> bool
        requires { IsStyle style }
        ensures { IsTrue result ↔ LastCovers style self.before self.at p }
    {
        match self.before {
            None => dot_covers(style.cap, self.at, style.width, p),
            Some(before) => !style.is_closed
                && cap_covers(style.cap, self.at, before, style.width, p),
        }
    }
}

/// Whether two points are the same.
pub(crate) fn is_same(a: Point, b: Point) -> bool
    ensures { result ≡ path.is_same a b }
{
    a.x() == b.x() && a.y() == b.y()
}
