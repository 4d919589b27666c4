//! Parts of a stroke, each bounded by straight lines and by at most one circle.
ghost use Rattle.std.specs.Prelude.{◌≡◌, ◌↔◌, ℤ, ◌≤◌, ◌^◌, pos};
ghost use Rattle.grid.specs.Bounds.{IsWithin};
ghost use Rattle.grid.specs.Position.{Position};
ghost use Rattle.strokes.specs.Pieces.{IsInPair, IsInPiece};
ghost use Rattle.strokes.specs.Segment.{SegmentCovers, IsInStrip};
ghost use Rattle.strokes.specs.Cap.{CapCovers, DotCovers, SquareCovers};
ghost use Rattle.strokes.specs.Disc.{DiscCovers};
ghost use Rattle.strokes.specs.Join.{JoinCovers, IsInWedge};
ghost use Rattle.strokes.specs.Stroke.{IsLimit};

use crate::cap::Cap;
use crate::disc::Disc;
use crate::join::{Join, is_mitered};
use crate::line::Line;
use crate::span::Span;
use grid::Point;

/// Two sides of straight lines, and what they have in common.
#[derive(Clone, Copy, Debug)]
pub(crate) struct Pair {
    pub(crate) first: Line,
    pub(crate) second: Line,
}

impl Pair {
    /// All points.
    fn everywhere(from: Point) -> Pair
        ensures { (p : Position) → IsInPair result p }
    {
        Pair {
            first: Line::everywhere(from),
            second: Line::everywhere(from),
        }
    }

    /// The strip of the line ab.
    fn strip(a: Point, b: Point, width: u32) -> Pair
        requires width { width ≤ 2 ^ 20 }
        ensures { (p : Position) → IsInPair result p ↔ IsInStrip a b width p }
    {
        Pair {
            first: Line::near_right(a, b, width),
            second: Line::near_left(a, b, width),
        }
    }

    /// The wedge of the corner abc.
    fn wedge(a: Point, b: Point, c: Point) -> Pair
        ensures { (p : Position) → IsInPair result p ↔ IsInWedge a b c p }
    {
        Pair {
            first: Line::behind(b, a),
            second: Line::behind(b, c),
        }
    }
}

/// A part of a stroke: what its sides and its disc, if it has one, have in common.
#[derive(Clone, Copy, Debug)]
pub struct Piece {
    pub(crate) ends: Pair,
    pub(crate) strip: Pair,
    pub(crate) other: Pair,
    pub(crate) disc: Option<Disc>,
}

impl Piece {
    ghost use Rattle.strokes.specs.Lines.{HasColumn};
    ghost use Rattle.polygons.specs.Columns.{along};

    /// Nothing.
    fn nothing(at: Point) -> Piece
        ensures { (p : Position) → ¬ IsInPiece result p }
    {
        Piece {
            ends: Pair {
                first: Line::nowhere(at),
                second: Line::everywhere(at),
            },
            strip: Pair::everywhere(at),
            other: Pair::everywhere(at),
            disc: None,
        }
    }

    /// The segment ab.
    pub fn segment(a: Point, b: Point, width: u32) -> Piece
        requires width { width ≤ 2 ^ 20 }
        ensures { (p : Position) → IsInPiece result p ↔ SegmentCovers a b width p }
    {
        Piece {
            ends: Pair {
                first: Line::in_front(a, b),
                second: Line::in_front(b, a),
            },
            strip: Pair::strip(a, b, width),
            other: Pair::everywhere(a),
            disc: None,
        }
    }

    /// The cap at a, where the path goes on to b.
    pub fn cap(cap: Cap, a: Point, b: Point, width: u32) -> Piece
        requires width { width ≤ 2 ^ 20 }
        ensures { (p : Position) → IsInPiece result p ↔ CapCovers cap a b width p }
    {
        match cap {
            Cap::Butt => Piece::nothing(a),
            Cap::Round => Piece {
                ends: Pair {
                    first: Line::behind(a, b),
                    second: Line::everywhere(a),
                },
                strip: Pair::everywhere(a),
                other: Pair::everywhere(a),
                disc: Some(Disc { center: a, width }),
            },
            Cap::Square => Piece {
                ends: Pair {
                    first: Line::behind(a, b),
                    second: Line::near_behind(a, b, width),
                },
                strip: Pair::strip(a, b, width),
                other: Pair::everywhere(a),
                disc: None,
            },
        }
    }

    /// The join at the corner abc.
    pub fn join(join: Join, a: Point, b: Point, c: Point, width: u32) -> Piece
        requires width { width ≤ 2 ^ 20 }
        requires limit { IsLimit join }
        ensures { (p : Position) → IsInPiece result p ↔ JoinCovers join a b c width p }
    {
        let wedge = Pair::wedge(a, b, c);
        if is_mitered(join, a, b, c) {
            Piece {
                ends: wedge,
                strip: Pair::strip(a, b, width),
                other: Pair::strip(b, c, width),
                disc: None,
            }
        } else {
            Piece {
                ends: wedge,
                strip: Pair::everywhere(b),
                other: Pair::everywhere(b),
                disc: Some(Disc { center: b, width }),
            }
        }
    }

    /// The stroke of a path of one point.
    pub fn dot(cap: Cap, center: Point, width: u32) -> Piece
        requires width { width ≤ 2 ^ 20 }
        ensures { (p : Position) → IsInPiece result p ↔ DotCovers cap center width p }
    {
        match cap {
            Cap::Butt => Piece::nothing(center),
            Cap::Round => Piece::disc(center, width),
            Cap::Square => Piece::square(center, width),
        }
    }

    /// The disc around a point.
    fn disc(center: Point, width: u32) -> Piece
        requires width { width ≤ 2 ^ 20 }
        ensures { (p : Position) → IsInPiece result p ↔ DiscCovers center width p }
    {
        Piece {
            ends: Pair::everywhere(center),
            strip: Pair::everywhere(center),
            other: Pair::everywhere(center),
            disc: Some(Disc { center, width }),
        }
    }

    /// The square around a point with horizontal and vertical sides.
    fn square(center: Point, width: u32) -> Piece
        requires width { width ≤ 2 ^ 20 }
        ensures { (p : Position) → IsInPiece result p ↔ SquareCovers center width p }
    {
        let width = i64::from(width);
        Piece {
            ends: Pair {
                first: Line {
                    from: center,
                    x: -2,
                    y: 0,
                    bound: width,
                },
                second: Line {
                    from: center,
                    x: 2,
                    y: 0,
                    bound: width - 1,
                },
            },
            strip: Pair {
                first: Line {
                    from: center,
                    x: 0,
                    y: -2,
                    bound: width,
                },
                second: Line {
                    from: center,
                    x: 0,
                    y: 2,
                    bound: width - 1,
                },
            },
            other: Pair::everywhere(center),
            disc: None,
        }
    }

    /// Those of the first columns that the piece has, in a row whose column 0 has its sample at (x, y).
    pub fn span(&self, x: i32, y: i32, columns: usize) -> Span
        requires x { IsWithin (2 ^ 24) x }
        requires y { IsWithin (2 ^ 24) y }
        requires columns { columns ≤ 4096 }
        ensures { (k : ℤ) → HasColumn result k ↔
            (HasColumn (record { first = pos 0; end = pos columns }) k × IsInPiece self.now (along (record { x = x; y = y }) k)) }
    {
        let span = Span::of(columns)
            .cut_both(&self.ends, x, y)
            .cut_both(&self.strip, x, y)
            .cut_both(&self.other, x, y);
        match &self.disc {
            None => span,
            Some(disc) => span.cut_round(disc, x, y),
        }
    }
}
