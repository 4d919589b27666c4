//! Batches: draws with their vertices and indices in the caller's arrays. A batch is checked as a whole, and then drawn
//! at the samples of a canvas. No call allocates.
#![tactic(auto)]

mod blend;
mod checking;
mod draw;
mod drawing;
mod fault;
mod ids;
mod indices;
mod part;
mod primitives;
mod seen;
mod stride;
mod strided;
mod vertex;
mod vertices;

pub use blend::BatchBlend;
pub use draw::BatchDraw;
pub use drawing::draw_batch;
pub use fault::{BatchCause, BatchFault};
pub use indices::BatchIndices;
pub use stride::Stride;
pub use vertex::BatchVertex;
pub use vertices::BatchVertices;
