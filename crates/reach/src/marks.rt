//! The tiles of triangles that are drawn together, as marks.
ghost use Rattle.std.specs.Prelude.{ℕ, ◌<◌, ◌≤◌, length};
ghost use Rattle.reach.specs.Reach.{IsInSpan, IsMarked, AreReached};

use crate::span::{NOWHERE, Span};
use crate::tiles::tiles_of;
use shade::Placed;

/// How many triangles a chunk has at most: one for each bit of a word.
pub const CHUNK: usize = 64;

/// The columns of tiles, or the tile rows, in which the triangles of a chunk may meet a sample.
#[derive(Drop)]
pub struct Marks {
    /// From the first one that bears a mark to the last one.
    pub span: Span,
    /// For each a word, whose bit k is the mark of triangle k of the chunk.
    pub words: [u64; 64],
}

impl Marks {
    /// Sets the marks of triangle `k` in a span.
    fn mark(&mut self, span: Span, k: usize)
        requires bit { k < 64 }
        requires few { span.end ≤ 64 }
        ensures set { (n : ℕ) → IsInSpan span n → IsMarked self.new n k }
        ensures kept { (n bit : ℕ) → IsMarked self.old n bit → IsMarked self.new n bit }
    {
        for n in span.first..span.end {
            self.words[n as usize] |= 1 << k;
        }
        self.span = self.span.joined(span);
    }
}

/// No column of tiles, or no tile row.
const UNMARKED: Marks = Marks {
    span: NOWHERE,
    words: [0; 64],
};

/// Which columns of tiles and which tile rows the triangles of a chunk can meet.
#[derive(Drop)]
pub struct Reached {
    /// The columns of tiles.
    pub columns: Marks,
    /// The tile rows.
    pub rows: Marks,
}

/// Which columns of tiles and which tile rows each of up to 64 triangles can meet. The mark of triangle k is bit k of a
/// word.
pub fn reach_of(chunk: &[Placed]) -> Reached
    requires { length chunk.now ≤ 64 }
    ensures { AreReached chunk.now result }
{
    let mut columns = UNMARKED;
    let mut rows = UNMARKED;
    for k in 0..chunk.len() {
        let (across, down) = tiles_of(&chunk[k]);
        columns.mark(across, k);
        rows.mark(down, k);
    }
    Reached { columns, rows }
}
