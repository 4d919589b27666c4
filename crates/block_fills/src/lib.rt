//! A fragment drawn at those samples of a tile row that are in masks, block by block, however the block is stored.
#![tactic(auto)]

mod allowed;
mod block;
mod change;
mod column;
mod covered_block;
mod flat;
mod masks;
mod pair;
mod palette;
mod plane;
mod replaced;
mod strip;
mod whole;

pub use masks::Masks;
pub use strip::paint_masks;
