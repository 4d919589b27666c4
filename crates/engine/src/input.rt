//! All bytes of an input.
ghost use Rattle.std.specs.Prelude.{◌≡◌, ◌<◌, ◌≤◌, ◌↔◌, ◌⊎◌, ◌+◌, length, Ok, OnOk, IfOk, IfErr, IsErrOf, vec_len};
ghost use Rattle.std.specs.Io.KnownBytes.{IsAtEnd};
ghost use Rattle.engine.specs.Input.{TakesOver, GivesAll, Gives};

use crate::fault::Fault;
use draw_list::MOST_BYTES;
use picture_file::Counted;
use std::alloc::{AllocError, Global};
use std::io::Read;

/// How many bytes are read at once.
const CHUNK: usize = 65_536;

/// A buffer of this size.
fn room_for(alloc: Global, size: usize) -> Result<Vec<u8>, AllocError>
    ensures { IfOk result (λ buffer. vec_len buffer ≡ size) }
{
    vec![in alloc; 0; size]
}

/// Reads once, and appends the bytes that came. Returns their count.
fn read_part<R: Read>(
    input: &mut Counted<R>,
    buffer: &mut [u8],
    bytes: &mut Vec<u8>,
) -> Result<usize, Fault>
    requires failures { input.old.failures < u64.MAX }
    requires room { 0 < length buffer.old }
    ensures count { IfOk result (λ n. (vec_len bytes.new ≡ vec_len bytes.old + n) × (n ≤ length buffer.old)) }
    ensures given { OnOk result (TakesOver (R.remaining input.old.inner) (R.remaining input.new.inner) bytes.old.items
        bytes.new.items) }
    ensures end { result ≡ Ok 0 → IsAtEnd (R.remaining input.new.inner) }
    ensures failed { IsErrOf result Fault.InputFailed ↔ (input.old.failures < input.new.failures) }
    ensures faults { IfErr result (λ e. (e ≡ Fault.InputFailed) ⊎ (e ≡ Fault.OutOfMemory)) }
    ensures failures { OnOk result (input.new.failures ≡ input.old.failures) }
{
    let Ok(count) = input.read(buffer) else {
        return Err(Fault::InputFailed);
    };
    bytes.extend_from_slice(&buffer[..count])?;
    Ok(count)
}

/// The bytes of an input up to its end. Fails with `InputTooLong` after 64 MiB and a byte, with `InputFailed` if the
/// reader failed, and with `OutOfMemory` if an allocation failed.
pub fn read_input<R: Read>(alloc: Global, input: &mut Counted<R>) -> Result<Vec<u8>, Fault>
    requires { input.old.failures < u64.MAX }
    ensures whole { IfOk result (λ bytes. GivesAll (R.remaining input.old.inner) (R.remaining input.new.inner)
        bytes.items) }
    ensures short { IfOk result (λ bytes. vec_len bytes ≤ MOST_BYTES) }
    ensures failed { IsErrOf result Fault.InputFailed ↔ (input.old.failures < input.new.failures) }
    ensures too_long { IsErrOf result Fault.InputTooLong →
        Gives (R.remaining input.old.inner) (R.remaining input.new.inner) (MOST_BYTES + 1) }
    ensures faults { IfErr result (λ e. (e ≡ Fault.InputFailed) ⊎
        ((e ≡ Fault.InputTooLong) ⊎ (e ≡ Fault.OutOfMemory))) }
{
    let mut bytes = Vec::new(alloc);
    let mut buffer = room_for(alloc, CHUNK)?;
    while bytes.len() <= MOST_BYTES {
        let room = CHUNK.min(MOST_BYTES + 1 - bytes.len());
        let count = read_part(input, &mut buffer[..room], &mut bytes)?;
        if count == 0 {
            return Ok(bytes);
        }
    }
    Err(Fault::InputTooLong)
}
