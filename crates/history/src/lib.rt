//! Why a sample is what it is: for each triangle, in draw order, the exact reasons why it did or did not change the
//! sample. No call allocates memory.
#![tactic(auto)]

mod edge;
mod event;
mod followed;
mod laws;
mod reasons;
mod sample_history;
mod sample_place;
mod samples;

pub use edge::{EdgeAt, EdgeReason, edge_at};
pub use event::{Event, Outcome, event_of};
pub use followed::{Followed, follow};
pub use laws::{events_are_exact, events_chain, has_every_reason};
pub use reasons::Reasons;
pub use sample_history::{SampleHistory, changes, events_of};
pub use sample_place::SamplePlace;
pub use samples::samples_met;
