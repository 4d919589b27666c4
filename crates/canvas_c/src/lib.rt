//! A canvas for programs in C, and for languages that call C: samples that stay in the caller's memory. No call
//! allocates.
#![tactic(auto)]

mod arrays;
mod batches;
mod cleared;
mod entries;
mod images;
mod piece;
mod polygon_arrays;
mod polygon_batches;
mod polygon_boxes;
mod sample_colours;
mod scratch;
mod tile_blends;
mod tiles;
mod weights;

pub use arrays::Batch;
pub use batches::{trirast_proved_canvas_draw, trirast_proved_canvas_draw_ids};
pub use cleared::{Clear, trirast_proved_canvas_clear};
pub use entries::{trirast_canvas_depths, trirast_canvas_ids};
pub use images::{trirast_canvas_load, trirast_canvas_resolve};
pub use piece::{CanvasHead, CanvasPiece, trirast_canvas_size, trirast_canvas_tile_rows};
pub use polygon_arrays::PolygonArrays;
pub use polygon_batches::{
    trirast_proved_canvas_draw_polygon_ids, trirast_proved_canvas_draw_polygons,
};
pub use polygon_boxes::trirast_proved_polygons_measure;
pub use sample_colours::{trirast_canvas_colors, trirast_canvas_store};
pub use scratch::{ScratchLayout, trirast_proved_polygons_scratch};
pub use tile_blends::trirast_canvas_tile_blend;
pub use tiles::{trirast_canvas_tile_ids, trirast_canvas_tile_store};
pub use weights::{Corners, Edges, trirast_edges_at_point};
