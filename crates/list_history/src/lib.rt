//! The history of one sample of a draw list's picture, and how many samples of the picture a triangle covers, changes
//! and is shown by.
#![tactic(auto)]

mod columns;
mod list_event;
mod number;
mod row;
mod sample_counts;
mod walk;

pub use list_event::ListEvent;
pub use number::number_of;
pub use sample_counts::{SampleCounts, counts_of};
pub use walk::ListHistory;
