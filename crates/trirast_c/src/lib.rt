//! The library for programs in C, and for languages that call C.
#![tactic(auto)]

ghost use Rattle.std.specs.Prelude.{◌≡◌};

mod buffer;
mod image_info;
mod messages;
mod picture;
mod picture_rows;
mod sample_history;
mod text;
mod tile_size;
mod triangle;

pub use c_abi::{CallError, Error};
pub use history_c::{HistoryRequest, SampleEvent, SampleInfo};
pub use image_info::{ImageInfo, trirast_proved_list_info};
pub use messages::trirast_error_message;
pub use picture::trirast_proved_list_draw;
pub use picture_rows::trirast_proved_list_draw_rows;
pub use sample_history::trirast_proved_list_history;
pub use triangle::{TriangleSamples, trirast_proved_list_triangle_samples};

/// The number of these calls and structs. A greater one has all that a smaller one has, in the same form.
pub const INTERFACE: u32 = 2;

/// Returns the number of these calls and structs: 2.
#[unsafe(no_mangle)]
pub extern "C" fn trirast_interface() -> u32
    ensures { result ≡ 2 }
{
    INTERFACE
}
