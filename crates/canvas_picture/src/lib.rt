//! A draw list's picture by a canvas: cleared, drawn in batches, and read out.
#![tactic(auto)]

mod laws;

pub use laws::{draws_depths, draws_pictures, joins_parts};
