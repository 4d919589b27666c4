//! Why a pixel is what it is: the history of its samples as a table that a person reads, or as JSON. And how many
//! samples a triangle covers, changes and is shown by.
#![tactic(auto)]

mod arguments;
mod asked_sample;
mod counts;
mod json;
mod pixel_report;
mod program;
mod table;
mod text;
mod words;

pub use arguments::{Asked, AskedTriangle, Form, Question, read_arguments};
pub use counts::report_triangle;
pub use program::{USAGE, command};
pub use text::{Pixel, ReportFault, report};
