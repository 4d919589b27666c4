//! How each call from C ends: its status, and the error that the caller gets; which sizes of structs it takes.
#![tactic(auto)]

mod call_error;
mod error;
mod fault;
mod size;
mod status;

pub use call_error::CallError;
pub use error::{Error, NONE, report};
pub use fault::Fault;
pub use size::is_own_size;
pub use status::{Status, status_of};
