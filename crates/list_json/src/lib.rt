//! Draw lists in JSON: which list a text denotes, and what is wrong with one that denotes none.
#![tactic(auto)]

mod words;

pub use words::{blend_named, cull_named, depth_test_named, output_named};
