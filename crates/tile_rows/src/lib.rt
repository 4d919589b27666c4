//! Tile rows that are drawn together, by several workers or on the calling thread, and put together.
#![tactic(auto)]

mod tile_rows;

pub use tile_rows::{Beside, InFlight, TileRows, rows_together};
