//! The arguments that the system gave the program.
ghost use Rattle.std.specs.Prelude.{◌≡◌, ◌≢◌, map, string_bytes, IfOk, IfErr};

use crate::line_fault::LineFault;
use std::alloc::{Alloc, AllocError, Global};
use std::env::{self, Env};

/// The arguments of the program. The first is its name. One that is not UTF-8 is refused.
pub fn own_arguments<Rt: Env + Alloc<A = Global>>(rt: &Rt) -> Result<Vec<String>, LineFault>
    ensures { IfErr result (λ fault. fault ≢ LineFault.Help) }
{
    let mut arguments = Vec::new(rt.alloc());
    for argument in env::args(rt)? {
        arguments.push(argument)?;
    }
    Ok(arguments)
}

/// The arguments as string slices, as `options` takes them.
pub fn as_slices(alloc: Global, arguments: &[String]) -> Result<Vec<&str>, AllocError>
    ensures { IfOk result (λ slices. map (λ slice. slice.now) slices.items ≡ map string_bytes arguments.now) }
{
    arguments
        .iter()
        .map(|argument| argument.as_str())
        .collect(alloc)
}
