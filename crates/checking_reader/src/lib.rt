//! Reads a draw list over `serde_json`'s value of a JSON text, with its keys in any order, and returns the first fault.
#![tactic(auto)]

mod array;
mod draw;
mod elements;
mod header;
mod index;
mod index_lists;
mod keys;
mod number;
mod primitives;
mod reader;
mod state;
mod vertices;
mod word;

pub use reader::read_by_value;
