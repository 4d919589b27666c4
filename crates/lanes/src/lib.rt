//! A triangle drawn at sixteen samples at once: masks, depth tests, blending, merging, the samples of a block, and
//! resolve.
#![tactic(auto)]

mod arithmetic;
mod blend;
mod block;
mod block_mask;
mod block_samples;
mod drawing;
mod factors;
mod fragment;
mod group;
mod interpolants;
mod known;
mod lane_bytes;
mod lane_mask;
mod merging;
mod mode;
mod one_by_one;
mod operands;
mod resolve;
mod source;
mod sources;

pub use block_mask::BlockMask;
pub use block_samples::BlockSamples;
pub use fragment::Fragment;
pub use interpolants::Interpolants;
pub use one_by_one::sample_position;
pub use resolve::{means_of_four, means_of_sums, sums};
