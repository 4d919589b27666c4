//! The tiles of a picture, the pixels of tiles, and the rows of pixels that a tile row's tiles make together.
#![tactic(auto)]

mod tile_pixels;
mod tile_row;
mod tiling;

pub use tile_pixels::TilePixels;
pub use tile_row::TileRow;
pub use tiling::Tiling;
