//! From the bytes of an input to the bytes of a picture.
ghost use Rattle.std.specs.Prelude.{◌≡◌, ◌<◌, ◌≤◌, ◌↔◌, ◌⊎◌, ℕ, ◌+◌, length, Ok, OnOk, IfOk, IfErr, IsErrOf, vec_len};
ghost use Rattle.draw_list.specs.declared.fault.ReadFault.{ReadFault};
ghost use Rattle.list_json.specs.Checks.{all_checks};
ghost use Rattle.list_json.specs.Denotes.{Denotes};
ghost use Rattle.list_json.specs.Json.{json_of};
ghost use Rattle.checks.specs.FirstFault.{IsFirstFault};
ghost use Rattle.engine.specs.Runs.{EndsAs};

use crate::fault::Fault;
use crate::input::read_input;
use crate::options::Options;
use crate::picture::write_picture;
use list::{DrawList, MOST_BYTES, read};
use picture_file::Counted;
use pool::{Gate, Open};
use std::alloc::Global;
use std::io::{Read, Write};
use std::sync::Wait;
use std::thread::Threads;

/// The draw list that the bytes denote, at most 64 MiB, or their first fault. Returns `OutOfMemory` if an allocation
/// fails.
pub fn read_list(alloc: Global, bytes: &[u8]) -> Result<DrawList, Fault>
    requires { length bytes.now ≤ MOST_BYTES }
    ensures ok { IfOk result (Denotes bytes.now) }
    ensures fault { IfErr result (λ e. (e ≡ Fault.OutOfMemory) ⊎
        ((fault : ReadFault) × (e ≡ Fault.List fault) × IsFirstFault (all_checks (json_of bytes.now)) fault)) }
{
    Ok(read(alloc, bytes)?)
}

/// Reads an input, draws what it denotes with these options, and writes the picture. Each worker passes through the
/// gate before it draws a tile.
pub fn run_with<Rt: Threads + Wait + Sync, R: Read, W: Write, G: Gate>(
    rt: &Rt,
    alloc: Global,
    input: &mut Counted<R>,
    output: &mut Counted<W>,
    options: Options,
    gate: &G,
) -> Result<(), Fault>
    requires workers { (1 ≤ options.workers) × (options.workers ≤ 16) }
    requires input { input.old.failures < u64.MAX }
    requires output { output.old.failures < u64.MAX }
    ensures { EndsAs options.tile result (R.remaining input.old.inner) (R.remaining input.new.inner) (W.contents output.old.inner) (W.contents output.new.inner)
        (input.old.failures < input.new.failures) (output.old.failures < output.new.failures) }
{
    let bytes = read_input(alloc, input)?;
    let list = read_list(alloc, bytes.as_slice())?;
    // Nothing needs the JSON text any more, so its memory is freed before drawing begins.
    drop(bytes);
    Ok(write_picture(rt, alloc, &list, options, gate, output)?)
}

/// Reads an input, draws what it denotes with these options, and writes the picture.
pub fn run<Rt: Threads + Wait + Sync, R: Read, W: Write>(
    rt: &Rt,
    alloc: Global,
    input: &mut Counted<R>,
    output: &mut Counted<W>,
    options: Options,
) -> Result<(), Fault>
    requires workers { (1 ≤ options.workers) × (options.workers ≤ 16) }
    requires input { input.old.failures < u64.MAX }
    requires output { output.old.failures < u64.MAX }
    ensures { EndsAs options.tile result (R.remaining input.old.inner) (R.remaining input.new.inner) (W.contents output.old.inner) (W.contents output.new.inner)
        (input.old.failures < input.new.failures) (output.old.failures < output.new.failures) }
{
    run_with(rt, alloc, input, output, options, &Open)
}
