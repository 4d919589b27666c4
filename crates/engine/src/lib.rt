//! The engine: from the bytes of a draw list to the bytes of its picture, over any reader and any writer.
#![tactic(auto)]

mod fault;
mod input;
mod options;
mod picture;
mod picture_bytes;
mod runs;

pub use fault::Fault;
pub use input::read_input;
pub use options::Options;
pub use picture::{PictureFault, write_picture};
pub use picture_bytes::{bytes_of_rows, draw, draw_rows};
pub use runs::{read_list, run, run_with};
