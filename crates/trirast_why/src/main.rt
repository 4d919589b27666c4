//! The program `trirast_why`: its arguments and standard streams, given to `why::command`.
#![tactic(auto)]

use program_input::{own_arguments, run_program};
use std::process::ExitCode;
use why::{USAGE, command};

fn main(rt: HostRuntime) -> ExitCode {
    let alloc = rt.alloc();
    let arguments = own_arguments(&rt);
    run_program(&rt, USAGE, arguments, |arguments, input, output, errors| {
        command(alloc, arguments, input, output, errors)
    })
}
