//! Work that waits until it is opened.

use grid::OutOfMemory;
use pool::Job;
use std::alloc::Global;
use std::sync::atomic::{AtomicU64, Ordering};
use std::thread;

/// Waits in each work until it is opened, for at most 1,000,000 turns, and returns whether it was.
#[derive(Drop)]
pub(crate) struct Waiting {
    begun: AtomicU64,
    opened: AtomicU64,
    /// Whether the second work that begins waits for none, and opens when it ends.
    second_opens: bool,
    /// The number on which the work then fails.
    refused: Option<u32>,
}

impl Waiting {
    /// Is opened by a call alone; the work on this number fails.
    pub(crate) fn for_call(refused: Option<u32>) -> Waiting {
        Waiting {
            begun: AtomicU64::new(0),
            opened: AtomicU64::new(0),
            second_opens: false,
            refused,
        }
    }

    /// Is opened by the end of the second work that begins.
    pub(crate) fn for_second() -> Waiting {
        Waiting {
            second_opens: true,
            ..Waiting::for_call(None)
        }
    }

    /// Opens, and returns how often that was done before.
    pub(crate) fn open(&self) -> u64 {
        self.opened.fetch_add(1, Ordering::SeqCst)
    }

    /// How often it was opened.
    pub(crate) fn opened(&self) -> u64 {
        self.opened.load(Ordering::SeqCst)
    }
}

impl Job for Waiting {
    type Out = bool;

    type Scratch = ();

    ghost right = { λ _ _ _. Unit {0} };

    ghost fits = { λ _ _. Unit {0} };

    ghost can_work = { λ _ _. Unit {0} };

    fn scratch(&self, _alloc: Global) -> Result<(), OutOfMemory> {
        Ok(())
    }

    fn work(&self, _alloc: Global, k: u32, _scratch: &mut ()) -> Result<bool, OutOfMemory> {
        if self.second_opens && self.begun.fetch_add(1, Ordering::SeqCst) == 1 {
            // Nothing of this work is left to do.
            self.open();
            return Ok(true);
        }
        for _ in 0..1_000_000 {
            if self.opened() > 0 {
                break;
            }
            thread::yield_now();
        }
        if self.refused == Some(k) {
            return Err(OutOfMemory);
        }
        Ok(self.opened() > 0)
    }
}
