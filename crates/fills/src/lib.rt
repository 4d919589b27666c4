//! Polygons drawn on a canvas: each in one colour and at one depth, merged as triangles are. No call allocates.
#![tactic(auto)]

mod batch;
mod group;
mod laws;
mod polygon;
mod row;
mod rows;
mod scratch;
mod window;

pub use batch::{Style, draw_polygons};
pub use laws::joins_polygons;
pub use scratch::{clear, counter_columns, flag_columns};
