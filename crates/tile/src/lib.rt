//! One tile of the picture, drawn from its bin.
#![tactic(auto)]

mod depths;
mod pixels;
mod store;
mod tile_pixels;

pub use store::Store;
pub use tile_pixels::render;
pub use tiling::TilePixels;
