//! How the 64 pixels of a block keep their samples, and the planes of a tile: in one sample, in few, in one plane, in two
//! or in a plane for each sample. This is the only crate that knows these ways. No call allocates.
//!
//! A tile is 64 by 64 pixels. A block is 8 by 8 of them, and a tile has 64 blocks, row by row. A plane has one sample of
//! each pixel of a block. A place is the index of a plane among those of its tile. A pair is a block of two planes.
#![tactic(auto)]

mod block_means;
mod flat_block;
mod known_count;
mod mask_lanes;
mod pair;
mod pair_blocks;
mod palette;
mod place;
mod tile_planes;
mod way;

pub use block_means::{means_of_block, means_of_one};
pub use flat_block::{FlatBlock, make_flat, one_sample};
pub use known_count::known;
pub use pair::has_pairs;
pub use pair_blocks::{pair_block, replace_samples, second_place};
pub use palette::Palette;
pub use place::{block_in_tile, merged_in_tile, place_by, place_in_tile, sample_in_tile};
pub use tile_planes::{
    block_way, clear_tile, fill_block, fill_tile, is_cleared, make_single, single_block,
};
pub use way::{Way, way_of};
