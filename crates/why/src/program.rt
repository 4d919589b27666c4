//! The command line program, over arguments and streams.
ghost use Rattle.std.specs.Prelude.{◌≡◌, ◌↔◌, ◌<◌, ◌⊎◌, ℕ, map, string_bytes, IfOk, IfErr, IsErrOf};
ghost use Rattle.program_input.specs.Refusal.{WritesLine, WritesSomeLine, refusal_line};
ghost use Rattle.why.specs.Answer.{IsAskedReport, Lacks, LacksAnswer, GivesReport, ExplainsFailure, WritesText, WritesReport, ReportEndsByFault, failure_of_report, why_usage_line};
ghost use Rattle.why.specs.Arguments.{AsksForUsage};
ghost use Rattle.why.specs.declared.program.Failure.TheVariants.{Run};

use crate::arguments::{Question, read_arguments};
use crate::counts::report_triangle;
use crate::text::{ReportFault, report};
use draw_list::{DrawList, ReadFault};
use engine::{Fault, read_input};
use list::read;
use picture_file::Counted;
use program_input::{LineFault, fail_with, refuse_with};
use std::alloc::Global;
use std::io::{Read, Write};

/// What `--help` prints.
pub const USAGE: &[u8] =
    b"usage: trirast_why (X,Y [--sample S] [--all] | --triangle DRAW,NUMBER) [--json] < list.json\n";

/// Why nothing was reported, or not all.
enum Failure {
    /// The picture has no such pixel, the pixel no such sample, or the list no such triangle.
    NotThere,
    /// The list could not be read, or the report not be written.
    Run(Fault),
}

impl From<Fault> for Failure {
    ghost from_gives = { λ fault failure. failure ≡ Run fault };

    fn from(fault: Fault) -> Failure {
        Failure::Run(fault)
    }
}

impl From<ReadFault> for Failure {
    ghost use Rattle.std.specs.Prelude.{◌≡◌};
    ghost use Rattle.engine.specs.declared.fault.Fault.{Fault as RunFault};
    ghost use Rattle.engine.specs.Faults.{IsOfList};

    ghost from_gives = { λ fault failure. (whole : RunFault) × IsOfList fault whole × (failure ≡ Run whole) };

    fn from(fault: ReadFault) -> Failure {
        Failure::Run(Fault::from(fault))
    }
}

impl From<ReportFault> for Failure {
    ghost use Rattle.why.specs.Answer.{failure_of_report};

    ghost from_gives = { λ fault failure. failure ≡ failure_of_report fault };

    fn from(fault: ReportFault) -> Failure {
        match fault {
            ReportFault::NoSuchSample | ReportFault::NoSuchTriangle => Failure::NotThere,
            ReportFault::OutOfMemory => Failure::Run(Fault::OutOfMemory),
        }
    }
}

/// Writes all of a text.
fn write_text<W: Write>(text: &str, output: &mut Counted<W>) -> Result<(), Fault>
    requires { output.old.failures < u64.MAX }
    ensures { WritesText text.now result (W.contents output.old.inner) (W.contents output.new.inner) output.old.failures
        output.new.failures }
{
    let written = output.write_all(text.as_bytes(), 0)?;
    match output.flush() {
        Ok(()) => Ok(()),
        Err(_) => Err(Fault::WriteFailed(written)),
    }
}

/// The text of the report that is asked for.
fn text_of(alloc: Global, list: &DrawList, question: &Question) -> Result<String, ReportFault>
    ensures report { IfOk result (λ text. IsAskedReport list.now question.now (string_bytes text)) }
    ensures fault { IfErr result (λ e. (e ≡ ReportFault.OutOfMemory) ⊎
        ((failure_of_report e ≡ Failure.NotThere) × Lacks list.now question.now)) }
{
    match question {
        Question::Pixel(asked) => match report(alloc, list, asked) {
            Ok((text, _pixel)) => Ok(text),
            Err(fault) => Err(fault),
        },
        Question::Triangle(asked) => match report_triangle(alloc, list, asked) {
            Ok((text, _counts)) => Ok(text),
            Err(fault) => Err(fault),
        },
    }
}

/// The text of the report that is asked for, of the draw list that the input gives.
fn text_asked<R: Read>(
    alloc: Global,
    input: &mut Counted<R>,
    question: &Question,
) -> Result<String, Failure>
    requires { input.old.failures < u64.MAX }
    ensures given { IfOk result (λ text. GivesReport question.now (string_bytes text) (R.remaining input.old.inner)
        (R.remaining input.new.inner)) }
    ensures failed { IfErr result (λ failure. ExplainsFailure question.now failure (R.remaining input.old.inner)
        (R.remaining input.new.inner)) }
    ensures input_failed { IsErrOf result (Failure.Run Fault.InputFailed) ↔ (input.old.failures < input.new.failures) }
{
    let bytes = read_input(alloc, input)?;
    let list = read(alloc, bytes.as_slice())?;
    // Nothing needs the JSON text any more.
    drop(bytes);
    Ok(text_of(alloc, &list, question)?)
}

/// Reads the arguments, of which the first is the program's name, and a draw list from the input, and writes the
/// history of a pixel's samples, or the counts of a triangle's. Returns the program's status: 0 if it was written or
/// the usage line was asked for, 1 if the run failed or memory ran out, and 2 if the program has no such arguments, the
/// picture no such pixel, the pixel no such sample, or the list no such triangle. After 1 and 2 a line on `errors`
/// reports the error, as `trirast` would. A line that cannot be written is passed over.
pub fn command<'a, R: Read, W: Write, E: Write>(
    alloc: Global,
    arguments: &'a [&'a str],
    input: &mut Counted<R>,
    output: &mut Counted<W>,
    errors: &mut Counted<E>,
) -> u8
    requires input { input.old.failures < u64.MAX }
    requires output { output.old.failures < u64.MAX }
    requires errors { errors.old.failures < u64.MAX }
    ensures status { (result ≡ 0) ⊎ (result ≡ 1) ⊎ (result ≡ 2) }
    ensures reported { let texts = map (λ word. word.now) arguments.entry.now in result ≡ 0
        → (AsksForUsage texts × WritesLine why_usage_line (W.contents output.old.inner) (W.contents output.new.inner) output.old.failures output.new.failures)
        ⊎ WritesReport texts (R.remaining input.old.inner) (R.remaining input.new.inner) (W.contents output.old.inner) (W.contents output.new.inner) }
    ensures quiet { result ≡ 0 → errors.new ≡ errors.old }
    // What is on the output is what a fault of the run explains, and nothing behind it.
    ensures failed { result ≡ 1 → ReportEndsByFault (map (λ word. word.now) arguments.entry.now) (R.remaining input.old.inner) (R.remaining input.new.inner) (W.contents output.old.inner) (W.contents output.new.inner)
        (input.old.failures < input.new.failures) (output.old.failures < output.new.failures) }
    ensures failure { result ≡ 1 → WritesSomeLine (E.contents errors.old.inner) (E.contents errors.new.inner)
        errors.old.failures errors.new.failures }
    ensures refused { result ≡ 2 → output.new ≡ output.old }
    ensures lacking { result ≡ 2 → (input.new ≡ input.old) ⊎
        LacksAnswer (map (λ word. word.now) arguments.entry.now) (R.remaining input.old.inner) (R.remaining input.new.inner) }
    ensures refusal { result ≡ 2 → WritesLine refusal_line (E.contents errors.old.inner) (E.contents errors.new.inner)
        errors.old.failures errors.new.failures }
{
    let question = match read_arguments(alloc, arguments) {
        Ok(question) => question,
        Err(fault) => return refuse_with(USAGE, fault, output, errors),
    };
    let text = match text_asked(alloc, input, &question) {
        Ok(text) => text,
        Err(Failure::NotThere) => return refuse_with(USAGE, LineFault::Refused, output, errors),
        Err(Failure::Run(fault)) => return fail_with(&fault, errors),
    };
    match write_text(text.as_str(), output) {
        Ok(()) => 0,
        Err(fault) => fail_with(&fault, errors),
    }
}
