//! The program `trirast`: its arguments and standard streams, given to `trirast::command`.
#![tactic(auto)]

use std::process::ExitCode;
use trirast::{USAGE, command, own_arguments, run_program};

fn main(rt: HostRuntime) -> ExitCode {
    let alloc = rt.alloc();
    let arguments = own_arguments(&rt);
    run_program(&rt, USAGE, arguments, |arguments, input, output, errors| {
        command(&rt, alloc, arguments, input, output, errors)
    })
}
