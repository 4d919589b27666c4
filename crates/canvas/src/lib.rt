//! A canvas: samples that stay in the caller's memory, so that batch after batch of triangles is drawn over them. No call
//! allocates. Threads share a canvas by its tile rows.
//!
//! A tile row is a row of tiles, over the whole width of the canvas. A piece is some tile rows with the memory of their
//! samples, to be cleared and drawn on. A window is a canvas that stands anywhere on the screen, by its origin.
#![tactic(auto)]

mod canvas;
mod cleared;
mod columns;
mod hidden;
mod ids;
mod indexed;
mod laws;
mod many;
mod piece;
mod row_list;
mod tile_rows;
mod triangles;
mod vertex;
mod window;

pub use canvas::Canvas;
pub use hidden::{replaces_colours, writes_beside_colours};
pub use ids::{Ids, colour_of_id, replacing};
pub use indexed::Indexed;
pub use laws::{joins_batches, moves_by_pixels, tells_last};
pub use piece::Piece;
pub use shade::Triangles;
pub use tile_rows::TileRows;
pub use vertex::Vertex;
pub use window::{Origin, Window, seen_point};
