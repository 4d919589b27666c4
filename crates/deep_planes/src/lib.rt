//! Depths of 24 bits from vertex depths of 32 bits, exact at each covered sample. With N the weighted sum of the vertex
//! depths and S the absolute doubled area, the depth is N / (2^8 S) rounded down.
//!
//! - One by one it is a division of 128 bits (`depth_at`).
//! - Sixteen at a time a plane gives N / S with 32 fractional bits, modulo 2^64 and less than 2^27 of its units too high.
//!   The integer part of N / (2^8 S) is then the depth or the number after it, and the depth if the 40 fractional bits
//!   below it are at least 2^27. If they are less, the sign of a remainder decides (`DeepPlane`).
#![tactic(auto)]

mod candidates;
mod deep_plane;
mod depth;
mod gradient;
mod lane_plane;
mod plane;
mod slope;

pub use deep_plane::DeepPlane;
pub use depth::depth_at;
