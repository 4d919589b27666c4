//! Fragments in the caller's memory, merged with the samples of one tile as those of triangles are. No call allocates.
//!
//! An entry is what is given for one sample, and a mask what is given for the 64 samples of one index of a block.
#![tactic(auto)]

mod blending;
mod fragments;

pub use blending::tile_blend;
pub use fragments::TileFragments;
