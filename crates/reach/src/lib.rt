//! Which tiles triangles can meet: the columns and the rows of tiles that meet the box round a triangle, cut by its
//! scissor, without the tiles at both ends of a row that its edges leave out. One triangle is asked for tiles of any
//! size, many are for tiles of 64 by 64 pixels. Columns and rows of tiles are counted from 0, at the upper left of the
//! screen. No call allocates.
#![tactic(auto)]

mod bounds;
mod marks;
mod span;
mod spans;
mod tiles;
mod words;

pub use bounds::Bounds;
pub use marks::{CHUNK, Marks, Reached, reach_of};
pub use span::{NOWHERE, Span};
pub use spans::Spans;
pub use tiles::{columns_met, tiles_met};
pub use words::next_bit;
