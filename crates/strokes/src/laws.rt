//! Laws of strokes. Each function computes what its law speaks of.
ghost use Rattle.std.specs.Prelude.{◌↔◌, ◌≤◌, ◌^◌, IsTrue};
ghost use Rattle.strokes.specs.Segment.{SegmentCovers};
ghost use Rattle.strokes.specs.Laws.{widened};
ghost use Rattle.strokes.specs.Stroke.{IsStyle, StrokeCovers};

use crate::segment::segment_covers;
use crate::stroke::covers;
use crate::style::Style;
use grid::Point;

/// Whether the segment ba covers `p`. It covers what ab covers.
pub fn reverse_covers(a: Point, b: Point, width: u32, p: Point) -> bool
    requires width { width ≤ 2 ^ 20 }
    ensures value { IsTrue result ↔ SegmentCovers b a width p }
    ensures same { IsTrue result ↔ SegmentCovers a b width p }
{
    segment_covers(b, a, width, p)
}

/// Whether the stroke of a path covers `p` with another width than that of the style. A wider stroke covers what a
/// narrower one covers, with all caps and joins.
pub fn widened_covers(path: &[Point], style: Style, width: u32, p: Point) -> bool
    requires { IsStyle (widened style width) }
    ensures value { IsTrue result ↔ StrokeCovers (widened style width) path.now p }
    ensures wider { style.width ≤ width → StrokeCovers style path.now p → IsTrue result }
{
    let widened = Style {
        width,
        cap: style.cap,
        join: style.join,
        is_closed: style.is_closed,
    };
    covers(path, widened, p)
}
