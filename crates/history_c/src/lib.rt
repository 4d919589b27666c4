//! The history of a sample of a draw list's picture, laid out as in C, and written into the caller's memory.
#![tactic(auto)]

mod event;
mod flags;
mod request;
mod sample_info;
mod stored;
mod walk;

pub use event::SampleEvent;
pub use request::HistoryRequest;
pub use sample_info::SampleInfo;
pub use stored::{Fragment, StoredSample};
pub use walk::write_events;
