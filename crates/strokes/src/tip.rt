//! A pen on its way along a path, which marks what it covers.
ghost use Rattle.std.specs.Prelude.{◌≡◌, [], ◌∷◌, None, false};
ghost use Rattle.strokes.specs.Cap.{CapCovers};
ghost use Rattle.strokes.specs.Stroke.{IsStyle, StrokeCovers};
ghost use Rattle.strokes.specs.Walking.{again, CornerCovers, StepCovers, LastCovers};
ghost use Rattle.strokes.specs.Marking.{HoldsBlocks, MarksShape};

use crate::blocks::Blocks;
use crate::pen::is_same;
use crate::piece::Piece;
use crate::style::Style;
use grid::Point;
use polygons::Flags;

/// Where a pen is on its way along a path.
#[derive(Clone, Copy, Debug, PartialEq, Eq)]
pub(crate) struct Tip {
    /// The point where it came from, which is another than where it is.
    pub(crate) before: Option<Point>,
    pub(crate) at: Point,
}

/// Marks the cap at a point of a path that goes on to another one, unless the path is closed.
fn mark_cap(at: Point, next: Point, style: Style, blocks: &Blocks, flags: &mut [Flags])
    requires style { IsStyle style }
    requires room { HoldsBlocks blocks.now flags.old }
    ensures { MarksShape blocks.now (λ p. (style.is_closed ≡ false) × CapCovers style.cap at next style.width p)
        flags.old flags.new }
{
    if !style.is_closed {
        blocks.mark(flags, &Piece::cap(style.cap, at, next, style.width));
    }
}

impl Tip {
    ghost use Rattle.strokes.specs.Tracing.{MarksOnwards};

    /// The pen at the first point of a path.
    fn new(at: Point) -> Tip
        ensures { result ≡ record { before = None; at = at } }
    {
        Tip { before: None, at }
    }

    /// The pen after it went through these points.
    fn along(self, points: &[Point], style: Style, blocks: &Blocks, flags: &mut [Flags]) -> Tip
        requires style { IsStyle style }
        requires room { HoldsBlocks blocks.now flags.old }
        ensures { MarksOnwards style blocks.now self points.now result flags.old flags.new }
    {
        let mut tip = self;
        for next in points {
            tip = tip.to(*next, style, blocks, flags);
        }
        tip
    }

    /// The pen after it went once more round a closed path.
    fn along_again(self, path: &[Point], style: Style, blocks: &Blocks, flags: &mut [Flags]) -> Tip
        requires style { IsStyle style }
        requires room { HoldsBlocks blocks.now flags.old }
        ensures { MarksOnwards style blocks.now self (again style path.now) result flags.old flags.new }
    {
        if style.is_closed {
            self.along(path, style, blocks, flags)
        } else {
            self
        }
    }

    /// The pen at the next point of the path.
    fn to(self, next: Point, style: Style, blocks: &Blocks, flags: &mut [Flags]) -> Tip
        requires style { IsStyle style }
        requires room { HoldsBlocks blocks.now flags.old }
        ensures { MarksOnwards style blocks.now self (next ∷ []) result flags.old flags.new }
    {
        if is_same(self.at, next) {
            self
        } else {
            self.mark_step(next, style, blocks, flags);
            Tip {
                before: Some(self.at),
                at: next,
            }
        }
    }

    /// Marks the segment to the next point, and the cap or the join where the pen is.
    fn mark_step(&self, next: Point, style: Style, blocks: &Blocks, flags: &mut [Flags])
        requires style { IsStyle style }
        requires room { HoldsBlocks blocks.now flags.old }
        ensures { MarksShape blocks.now (λ p. StepCovers style self.now.before self.now.at next p) flags.old flags.new }
    {
        blocks.mark(flags, &Piece::segment(self.at, next, style.width));
        self.mark_corner(next, style, blocks, flags);
    }

    /// Marks the cap or the join where the pen is and goes on to the next point.
    fn mark_corner(&self, next: Point, style: Style, blocks: &Blocks, flags: &mut [Flags])
        requires style { IsStyle style }
        requires room { HoldsBlocks blocks.now flags.old }
        ensures { MarksShape blocks.now (λ p. CornerCovers style self.now.before self.now.at next p) flags.old flags.new }
    {
        match self.before {
            None => mark_cap(self.at, next, style, blocks, flags),
            Some(before) => {
                let join = Piece::join(style.join, before, self.at, next, style.width);
                blocks.mark(flags, &join);
            }
        }
    }

    /// Marks the cap where the path ends, or the dot that a path of one point is.
    fn end(&self, style: Style, blocks: &Blocks, flags: &mut [Flags])
        requires style { IsStyle style }
        requires room { HoldsBlocks blocks.now flags.old }
        ensures { MarksShape blocks.now (λ p. LastCovers style self.now.before self.now.at p) flags.old flags.new }
    {
        match self.before {
            None => blocks.mark(flags, &Piece::dot(style.cap, self.at, style.width)),
            Some(before) => mark_cap(self.at, before, style, blocks, flags),
        }
    }
}

/// Marks the samples that the stroke of a path covers.
pub(crate) fn mark_stroke(path: &[Point], style: Style, blocks: &Blocks, flags: &mut [Flags])
    requires style { IsStyle style }
    requires room { HoldsBlocks blocks.now flags.old }
    ensures { MarksShape blocks.now (StrokeCovers style path.now) flags.old flags.new }
{
    match path {
        [] => {}
        [first, rest @ ..] => {
            let tip = Tip::new(*first).along(rest, style, blocks, flags);
            tip.along_again(path, style, blocks, flags)
                .end(style, blocks, flags);
        }
    }
}
