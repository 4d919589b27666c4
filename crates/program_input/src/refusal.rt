//! What a program writes if its arguments do not say what to do, or its run fails.
ghost use Rattle.std.specs.Prelude.{◌≡◌, ◌<◌};
ghost use Rattle.program_input.specs.Args.{status_of};
ghost use Rattle.program_input.specs.Refusal.{WritesLine, WritesSomeLine, refusal_line};

use crate::line_fault::LineFault;
use crate::messages::fault_line;
use engine::Fault;
use picture_file::Counted;
use std::io::Write;

/// The line that reports arguments that the program does not have.
const REFUSAL: &[u8] = b"trirast: command line refused\n";

/// Reports that the arguments do not say what to do: writes this usage line to the output if it was asked for, else the
/// line of the error to `errors`. Returns the program's status.
pub fn refuse_with<W: Write, E: Write>(
    usage: &[u8],
    fault: LineFault,
    output: &mut Counted<W>,
    errors: &mut Counted<E>,
) -> u8
    requires output { output.old.failures < u64.MAX }
    requires errors { errors.old.failures < u64.MAX }
    ensures help { result ≡ 0 → fault ≡ LineFault.Help }
    ensures usage { result ≡ 0 → WritesLine usage.now (W.contents output.old.inner) (W.contents output.new.inner)
        output.old.failures output.new.failures }
    ensures quiet { result ≡ 0 → errors.new ≡ errors.old }
    ensures failed { result ≡ 1 → output.new ≡ output.old }
    ensures failure { result ≡ 1 → WritesSomeLine (E.contents errors.old.inner) (E.contents errors.new.inner)
        errors.old.failures errors.new.failures }
    ensures refused { result ≡ 2 → output.new ≡ output.old }
    ensures refusal { result ≡ 2 → WritesLine refusal_line (E.contents errors.old.inner) (E.contents errors.new.inner)
        errors.old.failures errors.new.failures }
    ensures status { result ≡ status_of fault }
{
    match fault {
        LineFault::Help => {
            write_line(usage, output);
            0
        }
        LineFault::Refused => {
            write_line(REFUSAL, errors);
            2
        }
        LineFault::OutOfMemory => fail_with(&Fault::OutOfMemory, errors),
    }
}

/// Reports that the run failed: writes the line of the error to `errors`. Returns the program's status, 1.
pub fn fail_with<E: Write>(fault: &Fault, errors: &mut Counted<E>) -> u8
    requires { errors.old.failures < u64.MAX }
    ensures status { result ≡ 1 }
    ensures line { WritesSomeLine (E.contents errors.old.inner) (E.contents errors.new.inner) errors.old.failures
        errors.new.failures }
{
    write_line(fault_line(fault).as_str().as_bytes(), errors);
    1
}

/// Writes a line, or what of it can be written.
#[tactic(auto, using(crate::proofs::Lines::writes_line))]
fn write_line<W: Write>(line: &[u8], out: &mut Counted<W>)
    requires { out.old.failures < u64.MAX }
    ensures { WritesLine line.now (W.contents out.old.inner) (W.contents out.new.inner) out.old.failures
        out.new.failures }
{
    let _ = out.write_all(line, 0);
}
