//! The picture of a draw list, drawn as it is defined: each sample by itself, through all triangles in order.
#![tactic(auto)]

mod picture;
mod pixel;
mod triangle_sample;

pub use picture::render;
pub use pixel::{Colour, colour_at, end_at, end_of};
pub use triangle_sample::draw;
