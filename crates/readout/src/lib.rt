//! What a canvas has, read out and stored: the colours of pixels, resolved or of one sample, depths, ids, and pictures that
//! are loaded. No call allocates.
//!
//! A view is tile rows with the memory of their samples, to be read. Rows of pixels lie in the caller's memory, and a run is
//! pixels of such a row that lie side by side. An entry is what is written of one sample.
#![tactic(auto)]

mod colours;
mod entries;
mod format;
mod laws;
mod loaded;
mod misfit;
mod pixel_rows;
mod place;
mod sample;
mod straight;
mod tile_colours;
mod tile_ids;
mod view;

pub use entries::Entry;
pub use format::Format;
pub use laws::{keeps_colours, keeps_tiles};
pub use loaded::{load, store};
pub use misfit::Misfit;
pub use straight::{loads_what_was_written, multiplies_as_over};
pub use tile_colours::tile_store;
pub use view::View;
