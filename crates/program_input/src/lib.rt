//! What both programs do: give a command its arguments and streams, read options, refuse arguments, report errors.
#![tactic(auto)]

mod args;
mod line_fault;
mod messages;
mod process;
mod process_args;
mod refusal;

pub use args::options;
pub use line_fault::LineFault;
pub use messages::{FaultLine, LINE_BYTES, fault_line};
pub use process::run_program;
pub use process_args::{as_slices, own_arguments};
pub use refusal::{fail_with, refuse_with};
