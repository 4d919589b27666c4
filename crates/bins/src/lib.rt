//! Which triangles are drawn in each tile of a picture.
#![tactic(auto)]

mod bins;
mod candidates;
mod fetched;
mod sorting;
mod tile_run;

pub use bins::Bins;
pub use fetched::Fetched;
pub use tiling::Tiling;
