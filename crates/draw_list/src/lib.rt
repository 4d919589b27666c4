//! What a draw list is, holds and denotes: its limits, its triangles, its picture, and what is wrong with one.
#![tactic(auto)]

mod defaults;
mod draw;
mod draw_list;
mod fault;
mod limits;
mod output;
mod place;
mod primitives;
mod rows;
mod starts;
mod target;

pub use defaults::{
    DEFAULT_CLEAR, DEFAULT_OUTPUT, DEFAULT_SAMPLE_COUNT, DEFAULT_STATE, default_state,
};
pub use draw::{Draw, Vertex};
pub use draw_list::{DrawList, ListFault};
pub use fault::{ReadFault, ReadKind};
pub use limits::{
    ALL_SAMPLES, MOST_BYTES, MOST_DRAWS, MOST_PIXELS, MOST_QUADS, MOST_STRIP_INDICES,
    MOST_TRIANGLES, MOST_VERTICES, is_side,
};
pub use output::{Output, depth_bytes};
pub use place::TrianglePlace;
pub use primitives::{
    Primitives, is_convex, name_vertices, quad_triangle, quads_count, strip_count, strip_triangle,
};
pub use rows::RowSpan;
pub use shade::{Placed, State};
pub use target::{Target, picture_box};
