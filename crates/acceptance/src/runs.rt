//! What a run returns, and what its writer took.
ghost use Rattle.std.specs.Prelude.{◌≤◌};

use crate::cases::{Case, cases};
use crate::devices::{Sink, Source};
use crate::half::{FILE_BYTES, HALF, LIST_BYTES, half_file};
use grid::TileSide;
use pool::{Gate, PoolFault};
use std::alloc::Global;
use std::process::Abort;
use std::sync::Wait;
use std::sync::atomic::{AtomicU64, Ordering};
use std::test::Fail;
use std::thread;
use std::thread::Threads;
use trirast::{
    Counted, Fault, Options, fault_line, pgm_header, ppm_header, ppm_rows, run, run_with, write_ppm,
};

/// Asserts that the run ends as the case says: its result, the beginning of the file that was written, one flush after
/// a whole file and none else, one failure where a fault is due and none else, and no call after it.
fn ends<R: Threads + Wait + Sync + Abort>(
    rt: &R,
    alloc: Global,
    case: &Case,
    file: &[u8],
    workers: u32,
)
    requires { (1 ≤ workers) × (workers ≤ 16) }
{
    let mut input = Counted::new(Source::new(HALF.as_bytes(), case.reading));
    let mut output = Counted::new(Sink::new(alloc, case.writing));
    let options = Options {
        tile: TileSide::T32,
        workers,
    };
    let result = run(rt, alloc, &mut input, &mut output, options);
    assert_eq!(rt; result, case.result, "{case:?}");
    let read_failed = case.result == Err(Fault::InputFailed);
    assert_eq!(rt; input.failures(), u64::from(read_failed), "{case:?}");
    let write_failed = matches!(case.result, Err(Fault::WriteFailed(_)));
    assert_eq!(rt; output.failures(), u64::from(write_failed), "{case:?}");
    let (source, sink) = (input.into_inner(), output.into_inner());
    let taken = file.get(..case.written());
    assert!(rt; Some(sink.taken.as_slice()) == taken, "{case:?}");
    let is_whole = sink.taken.len() == file.len();
    assert_eq!(rt; sink.flushes, u64::from(is_whole), "{case:?}");
    assert_eq!(rt; (source.late_calls, sink.late_calls), (0, 0), "{case:?}");
}

#[test]
fn fails_where_a_device_fails_and_nowhere_else(rt: HostRuntime) -> Result<(), Fail> {
    let file = half_file(rt.alloc())?;
    assert_eq!(rt; (HALF.len(), file.len()), (LIST_BYTES, FILE_BYTES));
    for case in &cases(rt.alloc())? {
        ends(&rt, rt.alloc(), case, &file, 1);
    }
    Ok(())
}

// Threads take longer to start than the picture takes to draw, so only some cases are run.
#[test]
fn fails_with_seven_workers_where_a_device_fails(rt: HostRuntime) -> Result<(), Fail> {
    let file = half_file(rt.alloc())?;
    for case in cases(rt.alloc())?.iter().skip(1).step_by(10) {
        ends(&rt, rt.alloc(), case, &file, 7);
    }
    Ok(())
}

/// Holds the first tile entered until a second is entered, for at most a million turns.
#[derive(Drop)]
struct Meeting {
    entered: AtomicU64,
    met: AtomicU64,
}

impl Gate for Meeting {
    fn enter(&self, _worker: u32, _tile: u32) {
        if self.entered.fetch_add(1, Ordering::SeqCst) > 0 {
            return;
        }
        for _ in 0..1_000_000 {
            if self.entered.load(Ordering::SeqCst) > 1 {
                self.met.store(1, Ordering::SeqCst);
                return;
            }
            thread::yield_now();
        }
    }
}

#[test]
fn two_at_once_picture(rt: HostRuntime) -> Result<(), Fail> {
    let gate = Meeting {
        entered: AtomicU64::new(0),
        met: AtomicU64::new(0),
    };
    let mut input = Counted::new(HALF.as_bytes());
    let mut output = Counted::new(Vec::new(rt.alloc()));
    let options = Options {
        tile: TileSide::T32,
        workers: 2,
    };
    let result = run_with(&rt, rt.alloc(), &mut input, &mut output, options, &gate);
    assert_eq!(rt; result, Ok(()));
    assert_eq!(rt; gate.met.load(Ordering::SeqCst), 1);
    let written: Vec<u8> = output.into_inner();
    assert_eq!(rt; written.as_slice(), half_file(rt.alloc())?.as_slice());
    Ok(())
}

#[test]
fn writes_files_headers_and_rows(rt: HostRuntime) -> Result<(), Fail> {
    let mut out = Counted::new(Vec::new(rt.alloc()));
    assert_eq!(rt; write_ppm(1, 1, &[1, 2, 3], &mut out), Ok(()));
    assert_eq!(rt; ppm_header(4096, 65, &mut out), Ok(15));
    assert_eq!(rt; ppm_rows(&[7, 8], 15, &mut out), Ok(17));
    assert_eq!(rt; pgm_header(1, 1, &mut out), Ok(13));
    assert_eq!(rt; ppm_rows(&[0, 95], 13, &mut out), Ok(15));
    assert_eq!(rt; pgm_header(4096, 4095, &mut out), Ok(19));
    assert_eq!(rt; out.failures(), 0);
    let written: Vec<u8> = out.into_inner();
    let expected =
        b"P6\n1 1\n255\n\x01\x02\x03P6\n4096 65\n255\n\x07\x08P5\n1 1\n65535\n\0\x5FP5\n4096 4095\n65535\n";
    assert_eq!(rt; written.as_slice(), expected.as_slice());
    Ok(())
}

// No run reports it, so the program never prints this line.
#[test]
fn has_a_line_for_a_thread_that_was_not_started(rt: HostRuntime) -> Result<(), Fail> {
    let line = fault_line(&Fault::from(PoolFault::NoWorker));
    assert_eq!(rt; line.as_str(), "trirast: pool fault 2 NoWorker\n");
    Ok(())
}
