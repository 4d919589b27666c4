//! What is written of a picture's file: its header, its rows of pixels, and how many writes failed.
#![tactic(auto)]

mod counted;
mod header;
mod ppm;
mod write_all;

pub use counted::Counted;
pub use header::{HEADER_BYTES, file_header, pgm_header, ppm_header, write_header};
pub use ppm::{ppm_rows, write_ppm};
pub use write_all::WriteFault;
