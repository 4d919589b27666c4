//! Columns of a row of samples that follow one another.
ghost use Rattle.std.specs.Prelude.{◌≡◌, ◌↔◌, ℤ, ◌≤◌, pos, negsuc, ◌^◌, ◌≤ℤ◌, ◌<ℤ◌, ◌*ℤ◌, neg_ℤ};
ghost use Rattle.grid.specs.Bounds.{IsWithin};
ghost use Rattle.strokes.specs.Disc.{DiscCovers};
ghost use Rattle.strokes.specs.Lines.{HasColumn, IsOnSide};
ghost use Rattle.strokes.specs.Pieces.{IsInPair};

use crate::border::root_bound;
use crate::disc::Disc;
use crate::line::Line;
use crate::piece::Pair;

/// The columns from `first` to before `end`.
#[derive(Clone, Copy, Debug)]
pub struct Span {
    pub first: i64,
    pub end: i64,
}

/// No column.
pub(crate) const NOTHING: Span = Span { first: 0, end: 0 };

/// The last column up to which an edge function, which grows by `by` for each 1/256 pixel, exceeds that of column 0 by no
/// more than this.
fn last_column(rest: i64, by: i64) -> i64
    requires by { pos 0 <ℤ by }
    requires small { by ≤ℤ pos (2 ^ 24) }
    requires rest { IsWithin (2 ^ 52) rest }
    ensures columns { (k : ℤ) → ((pos 256 *ℤ (by *ℤ k)) ≤ℤ rest) ↔ (k ≤ℤ result) }
    ensures size { IsWithin (2 ^ 52) result }
{
    rest.div_euclid(256 * by)
}

/// The opposite of a number.
fn opposite(z: i64) -> i64
    requires { IsWithin (2 ^ 52) z }
    ensures { result ≡ neg_ℤ z }
{
    -z
}

impl Span {
    ghost use Rattle.grid.specs.Position.{Position};
    ghost use Rattle.polygons.specs.Columns.{along};

    /// Its columns up to one.
    fn up_to(self, last: i64) -> Span
        ensures { (k : ℤ) → HasColumn result k ↔ (HasColumn self k × (k ≤ℤ last)) }
    {
        if last < self.end {
            Span {
                first: self.first,
                end: last + 1,
            }
        } else {
            self
        }
    }

    /// Its columns from one on.
    fn since(self, first: i64) -> Span
        ensures { (k : ℤ) → HasColumn result k ↔ (HasColumn self k × (first ≤ℤ k)) }
    {
        if self.first < first {
            Span {
                first,
                end: self.end,
            }
        } else {
            self
        }
    }

    /// Its columns that are on the side of a line, in a row whose column 0 has its sample at (x, y).
    pub(crate) fn cut(self, line: &Line, x: i32, y: i32) -> Span
        requires x { IsWithin (2 ^ 24) x }
        requires y { IsWithin (2 ^ 24) y }
        ensures { (k : ℤ) → HasColumn result k ↔ (HasColumn self k × IsOnSide line.now (along (record { x = x; y = y }) k)) }
    {
        let rest = line.rest(x, y);
        let by = i64::from(line.x);
        if 0 < by {
            self.up_to(last_column(rest, by))
        } else if by < 0 {
            self.since(opposite(last_column(rest, opposite(by))))
        } else if rest < 0 {
            NOTHING
        } else {
            self
        }
    }

    /// The first columns.
    pub(crate) fn of(columns: usize) -> Span
        requires { columns ≤ 4096 }
        ensures { result ≡ record { first = pos 0; end = pos columns } }
    {
        Span {
            first: 0,
            end: columns as i64,
        }
    }

    /// Its columns that are on both sides, in such a row.
    pub(crate) fn cut_both(self, pair: &Pair, x: i32, y: i32) -> Span
        requires x { IsWithin (2 ^ 24) x }
        requires y { IsWithin (2 ^ 24) y }
        ensures { (k : ℤ) → HasColumn result k ↔ (HasColumn self k × IsInPair pair.now (along (record { x = x; y = y }) k)) }
    {
        self.cut(&pair.first, x, y).cut(&pair.second, x, y)
    }

    /// Its columns that are in a disc, in such a row.
    pub(crate) fn cut_round(self, disc: &Disc, x: i32, y: i32) -> Span
        requires x { IsWithin (2 ^ 24) x }
        requires y { IsWithin (2 ^ 24) y }
        ensures { (k : ℤ) → HasColumn result k ↔
            (HasColumn self k × DiscCovers disc.now.center disc.now.width (along (record { x = x; y = y }) k)) }
    {
        let rest = disc.rest(y);
        if rest < 0 {
            NOTHING
        } else {
            let square = rest.unsigned_abs();
            self.cut(&disc.edge(1, root_bound(square, false)), x, y)
                .cut(&disc.edge(-1, root_bound(square, true)), x, y)
        }
    }
}
