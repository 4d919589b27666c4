//! A program's command over its own arguments and standard streams.
ghost use Rattle.std.specs.Prelude.{◌≡◌, ◌<◌, ◌⊎◌, map, string_bytes, IfOk, IfErr};
ghost use Rattle.std.specs.Process.{exit_status};
ghost use Rattle.program_input.specs.Args.{status_of};

use crate::line_fault::LineFault;
use crate::process_args::as_slices;
use crate::refusal::refuse_with;
use picture_file::Counted;
use std::io::{Stderr, Stdin, Stdout};
use std::process::ExitCode;

/// Calls `command` with the program's arguments, of which the first is its name, and with its standard input, output
/// and error. Returns its status. If the arguments could not be read, or memory runs out before the call, that is
/// reported as by `refuse_with`, and `command` is not called.
pub fn run_program<
    F: FnOnce(&[&str], &mut Counted<Stdin>, &mut Counted<Stdout>, &mut Counted<Stderr>) -> u8,
>(rt: &HostRuntime, usage: &[u8], arguments: Result<Vec<String>, LineFault>, command: F) -> ExitCode
    requires { (words : _) (input : _) (output : _) (errors : _)
        → input.now.failures < u64.MAX → output.now.failures < u64.MAX → errors.now.failures < u64.MAX →
        F.pre command words input output errors }
    ensures unread { IfErr arguments (λ fault. exit_status result ≡ status_of fault) }
    // The exit status is one that a call of `command` with these arguments returned, or memory ran out before the call.
    ensures called { IfOk arguments (λ texts. ((words : _) × (input : _) × (output : _) × (errors : _) × (input' : _) × (output' : _) × (errors' : _)
        × (map (λ word. word.now) words.now ≡ map string_bytes texts.items)
        × F.post command words input output errors (exit_status result) input' output' errors')
        ⊎ (exit_status result ≡ status_of LineFault.OutOfMemory)) }
{
    let mut output = Counted::new(rt.stdout());
    let mut errors = Counted::new(rt.stderr());
    let texts = match arguments {
        Ok(texts) => texts,
        Err(fault) => return ExitCode::from(refuse_with(usage, fault, &mut output, &mut errors)),
    };
    let Ok(words) = as_slices(rt.alloc(), &texts) else {
        let status = refuse_with(usage, LineFault::OutOfMemory, &mut output, &mut errors);
        return ExitCode::from(status);
    };
    let mut input = Counted::new(rt.stdin());
    ExitCode::from(command(&words, &mut input, &mut output, &mut errors))
}
