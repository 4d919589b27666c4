//! The tiles in the boxes of many triangles.
ghost use Rattle.std.specs.Prelude.{◌≤◌, length};
ghost use Rattle.reach.specs.Bounds.{AreBounds};

use crate::span::Span;
use crate::spans::Spans;
use crate::tiles::tiles_of;
use shade::Triangles;

/// The columns of tiles and the tile rows in which each of up to `N` triangles can meet a sample.
#[derive(Drop)]
pub struct Bounds<const N: usize> {
    /// The columns of tiles of each triangle.
    pub columns: Spans<N>,
    /// The tile rows of each triangle.
    pub rows: Spans<N>,
    /// The tile rows from the first that any of them can meet to the last.
    pub span: Span,
}

impl<const N: usize> Bounds<N> {
    /// Sets the bounds of the triangles, each under its number in draw order.
    pub fn set<T: Triangles>(&mut self, triangles: &T)
        requires { length (T.listed triangles.now) ≤ N }
        ensures { AreBounds (T.listed triangles.now) (length (T.listed triangles.now)) self.new.columns.firsts
            self.new.columns.ends self.new.rows.firsts self.new.rows.ends self.new.span }
    {
        for number in 0..triangles.count() {
            let (columns, rows) = tiles_of(&triangles.triangle(number));
            self.columns.set(number, columns);
            self.rows.set(number, rows);
            self.span = self.span.joined(rows);
        }
    }
}
