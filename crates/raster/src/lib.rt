//! One triangle drawn at the samples of one tile, which stay in the caller's memory. No call allocates.
#![tactic(auto)]

mod block;
mod cleared;
mod lazy;
mod pixel_row;
mod rasterize;
mod region;
mod scissor;
mod tile;

pub use block::{draw_fragment, draw_masks};
pub use cleared::clear;
pub use lazy::LazyInterpolants;
pub use pixel_row::{colours, eight_from, first_of_many, interleaved};
pub use rasterize::{covers_tile, draw_next, draw_triangle};
pub use scissor::holds_tile;
pub use tile::Tile;
