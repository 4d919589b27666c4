ghost use Rattle.std.specs.Prelude.{◌↔◌, IsTrue};
ghost use Rattle.strokes.specs.Stroke.{IsStyle, StrokeCovers};

use crate::pen::Pen;
use crate::style::Style;
use grid::Point;

/// Whether the stroke of a path covers `p`, by its definition: each segment, join and cap is tested. A point that repeats
/// the one before changes nothing. A path of one point is its cap alone, and a path of no point covers nothing. The path
/// is in 1/256 pixel.
pub fn covers(path: &[Point], style: Style, p: Point) -> bool
    requires { IsStyle style }
    ensures { IsTrue result ↔ StrokeCovers style path.now p }
{
    match path {
        [] => false,
        [first, rest @ ..] => {
            let pen = Pen::new(*first).along(rest, style, p);
            pen.along_again(path, style, p).covers(style, p)
        }
    }
}
