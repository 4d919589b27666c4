//! The command line program, over arguments and streams.
ghost use Rattle.std.specs.Prelude.{◌≡◌, ◌<◌, ◌⊎◌, map};
ghost use Rattle.program_input.specs.Args.{AsksForHelp};
ghost use Rattle.program_input.specs.Refusal.{WritesLine, WritesSomeLine, refusal_line};
ghost use Rattle.trirast.specs.Program.{EndsByFault, usage_line};
ghost use Rattle.engine.specs.Runs.{WritesPicture};

use engine::run;
use picture_file::Counted;
use program_input::{fail_with, options, refuse_with};
use std::alloc::Global;
use std::io::{Read, Write};
use std::sync::Wait;
use std::thread::Threads;

/// What `--help` prints.
pub const USAGE: &[u8] =
    b"usage: trirast [--tile 8|16|32|64] [--workers 1..16] < list.json > picture.ppm\n";

/// Reads the arguments, of which the first is the program's name, and a draw list from the input, and writes its
/// picture. Returns the program's status: 0 if the picture was written or the usage line was asked for, 1 if the run
/// failed or memory ran out while the arguments were read, and 2 if the program has no such arguments. After 1 and 2 a
/// line on `errors` reports the error. A line that cannot be written is passed over.
pub fn command<'a, Rt: Threads + Wait + Sync, R: Read, W: Write, E: Write>(
    rt: &Rt,
    alloc: Global,
    arguments: &'a [&'a str],
    input: &mut Counted<R>,
    output: &mut Counted<W>,
    errors: &mut Counted<E>,
) -> u8
    requires input { input.old.failures < u64.MAX }
    requires output { output.old.failures < u64.MAX }
    requires errors { errors.old.failures < u64.MAX }
    ensures status { (result ≡ 0) ⊎ (result ≡ 1) ⊎ (result ≡ 2) }
    ensures drawn { result ≡ 0 → (AsksForHelp (map (λ word. word.now) arguments.entry.now) × WritesLine usage_line (W.contents output.old.inner) (W.contents output.new.inner) output.old.failures output.new.failures)
        ⊎ WritesPicture (R.remaining input.old.inner) (R.remaining input.new.inner) (W.contents output.old.inner) (W.contents output.new.inner) }
    ensures quiet { result ≡ 0 → errors.new ≡ errors.old }
    // What is on the output is what a fault of the run explains, and nothing behind it.
    ensures failed { result ≡ 1 → EndsByFault (R.remaining input.old.inner) (R.remaining input.new.inner) (W.contents output.old.inner) (W.contents output.new.inner)
        (input.old.failures < input.new.failures) (output.old.failures < output.new.failures) }
    ensures failure { result ≡ 1 → WritesSomeLine (E.contents errors.old.inner) (E.contents errors.new.inner)
        errors.old.failures errors.new.failures }
    ensures refused { result ≡ 2 → (input.new ≡ input.old) × (output.new ≡ output.old) }
    ensures refusal { result ≡ 2 → WritesLine refusal_line (E.contents errors.old.inner) (E.contents errors.new.inner)
        errors.old.failures errors.new.failures }
{
    match options(alloc, arguments) {
        Ok(options) => match run(rt, alloc, input, output, options) {
            Ok(()) => 0,
            Err(fault) => fail_with(&fault, errors),
        },
        Err(fault) => refuse_with(USAGE, fault, output, errors),
    }
}
