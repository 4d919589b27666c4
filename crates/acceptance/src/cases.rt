//! The table of runs over readers and writers that fail: each place at which one can fail, and how the run then ends.
ghost use Rattle.std.specs.Prelude.{◌<◌};

use crate::devices::{Full, Reading, Writing};
use crate::half::{FILE_BYTES, LIST_BYTES};
use std::alloc::{AllocError, Global};
use trirast::Fault;

/// A reader of the list, a writer of its picture, and how the run over both ends.
#[derive(Clone, Copy, Debug)]
pub(crate) struct Case {
    pub(crate) reading: Reading,
    pub(crate) writing: Writing,
    pub(crate) result: Result<(), Fault>,
}

impl Case {
    /// A run in which nothing fails.
    fn whole() -> Case {
        Case {
            reading: Reading {
                bytes_a_call: LIST_BYTES,
                calls: u64::MAX,
            },
            writing: Writing {
                bytes_a_call: FILE_BYTES,
                room: FILE_BYTES,
                full: Full::Fails,
                can_flush: true,
            },
            result: Ok(()),
        }
    }

    /// How many bytes the run writes.
    pub(crate) fn written(&self) -> usize {
        match self.result {
            Ok(()) => FILE_BYTES,
            Err(Fault::WriteFailed(bytes)) => bytes as usize,
            Err(_) => 0,
        }
    }
}

/// A writer that has room for so many bytes fails at the next one, if there is one.
fn push_writes(all: &mut Vec<Case>, full: Full) -> Result<(), AllocError> {
    for room in 0..=FILE_BYTES {
        let mut case = Case::whole();
        case.writing.room = room;
        case.writing.full = full;
        if room < FILE_BYTES {
            case.result = Err(Fault::WriteFailed(room as u64));
        }
        all.push(case)?;
    }
    Ok(())
}

/// A writer takes the whole file, and can be flushed, or not.
fn push_flushes(all: &mut Vec<Case>, bytes_a_call: usize) -> Result<(), AllocError> {
    let mut case = Case::whole();
    case.writing.bytes_a_call = bytes_a_call;
    all.push(case)?;
    case.writing.can_flush = false;
    case.result = Err(Fault::WriteFailed(FILE_BYTES as u64));
    all.push(case)?;
    Ok(())
}

/// A reader gives the list in so many calls, and its end in one more. It fails at the next one, if there is one.
fn push_reads(all: &mut Vec<Case>, bytes_a_call: usize) -> Result<(), AllocError>
    requires { 0 < bytes_a_call }
{
    let reads = LIST_BYTES.div_ceil(bytes_a_call) as u64 + 1;
    for calls in 0..=reads {
        let mut case = Case::whole();
        case.reading = Reading {
            bytes_a_call,
            calls,
        };
        if calls < reads {
            case.result = Err(Fault::InputFailed);
        }
        all.push(case)?;
    }
    Ok(())
}

/// Each place at which a reader, a writer or a flush can fail, and runs in which nothing fails.
pub(crate) fn cases(alloc: Global) -> Result<Vec<Case>, AllocError> {
    let mut all = Vec::new(alloc);
    push_reads(&mut all, 1)?;
    push_reads(&mut all, 7)?;
    push_reads(&mut all, LIST_BYTES)?;
    push_flushes(&mut all, 1)?;
    push_flushes(&mut all, 7)?;
    push_flushes(&mut all, FILE_BYTES)?;
    push_writes(&mut all, Full::Fails)?;
    push_writes(&mut all, Full::TakesNothing)?;
    Ok(all)
}
