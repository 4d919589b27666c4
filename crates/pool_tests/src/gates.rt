//! When a worker passes the gate, and under which number.
ghost use Rattle.std.specs.Prelude.{◌≡◌, ◌<◌, ℕ};

use grid::OutOfMemory;
use pool::{Desks, Gate, Job, Open, PoolFault, Tickets, run};
use std::alloc::Global;
use std::sync::Wait;
use std::sync::atomic::{AtomicU64, Ordering};
use std::test::Fail;
use std::thread;
use std::thread::Threads;

/// How many workers there are, and tiles.
const WORKERS: u32 = 3;

const TILES: u32 = 12;

/// Watches the gate and the work behind it. The first three passes wait for one another, so that each worker makes one
/// of them, for at most a million turns.
#[derive(Drop)]
struct Watch {
    /// How often a worker passed.
    passes: AtomicU64,
    /// Of each tile, in five bits, one more than the worker that passed for it, and 0 if none has.
    passed: AtomicU64,
    /// How many of the first three passes were for the tile that has the worker's number.
    own: AtomicU64,
    /// Of each worker, in eight bits, how many scratches met its tiles first.
    scratches: AtomicU64,
}

impl Watch {
    fn new() -> Watch {
        Watch {
            passes: AtomicU64::new(0),
            passed: AtomicU64::new(0),
            own: AtomicU64::new(0),
            scratches: AtomicU64::new(0),
        }
    }

    /// One more than the worker that passed for this tile, 0 if none has.
    fn worker_of(&self, tile: u32) -> u64 {
        if tile >= TILES {
            return 0;
        }
        (self.passed.load(Ordering::SeqCst) >> (5 * tile)) & 31
    }

    /// Waits until each worker has passed once.
    fn wait_for_all(&self) {
        for _ in 0..1_000_000 {
            if self.passes.load(Ordering::SeqCst) >= u64::from(WORKERS) {
                return;
            }
            thread::yield_now();
        }
    }
}

impl Gate for Watch {
    fn enter(&self, worker: u32, tile: u32) {
        if worker < WORKERS && tile < TILES {
            self.passed
                .fetch_add(u64::from(worker + 1) << (5 * tile), Ordering::SeqCst);
        }
        if self.passes.fetch_add(1, Ordering::SeqCst) < u64::from(WORKERS) {
            if worker == tile {
                self.own.fetch_add(1, Ordering::SeqCst);
            }
            self.wait_for_all();
        }
    }
}

impl Job for Watch {
    /// Whether the worker had passed for the tile before, under the number under which it passed for all others.
    type Out = bool;

    /// One more than the number of the worker, and 0 before its first work.
    type Scratch = u64;

    ghost right = { λ _ _ _. Unit {0} };

    ghost fits = { λ _ _. Unit {0} };

    ghost can_work = { λ _ _. Unit {0} };

    fn scratch(&self, _alloc: Global) -> Result<u64, OutOfMemory> {
        Ok(0)
    }

    fn work(&self, _alloc: Global, k: u32, scratch: &mut u64) -> Result<bool, OutOfMemory> {
        let worker = self.worker_of(k);
        if *scratch == 0 {
            *scratch = worker;
            self.scratches
                .fetch_add(1 << (8 * (worker & 3)), Ordering::SeqCst);
        }
        Ok(worker > 0 && *scratch == worker)
    }
}

// Each worker begins with the first number of its own desk, which is its own number.
#[test]
fn a_worker_passes_under_its_number_before_its_work(rt: HostRuntime) -> Result<(), Fail> {
    let watch = Watch::new();
    let answers = run::<_, Desks, _, _>(&rt, rt.alloc(), TILES, WORKERS, &watch, &watch)?;
    assert!(rt; answers.iter().all(|is_right| *is_right));
    assert!(rt; watch.passes.load(Ordering::SeqCst) == u64::from(TILES));
    assert!(rt; watch.own.load(Ordering::SeqCst) == u64::from(WORKERS));
    assert!(rt; watch.scratches.load(Ordering::SeqCst) == 0x0101_0100);
    Ok(())
}

#[test]
fn a_worker_with_a_ticket_passes_before_its_work(rt: HostRuntime) -> Result<(), Fail> {
    let watch = Watch::new();
    let answers = run::<_, Tickets, _, _>(&rt, rt.alloc(), TILES, WORKERS, &watch, &watch)?;
    assert!(rt; answers.iter().all(|is_right| *is_right));
    assert!(rt; watch.scratches.load(Ordering::SeqCst) == 0x0101_0100);
    Ok(())
}

/// Work on a number that may begin only once a worker has entered this gate for it.
#[derive(Drop)]
struct Behind<'a, G> {
    gate: &'a G,
}

impl<G: Gate> Job for Behind<'_, G> {
    type Out = u32;

    type Scratch = ();

    ghost right = { λ _ k answer. answer ≡ k };

    ghost fits = { λ _ _. Unit {0} };

    ghost can_work = { λ job k. (worker : ℕ) × G.entered job.gate.now worker k };

    fn scratch(&self, _alloc: Global) -> Result<(), OutOfMemory> {
        Ok(())
    }

    fn work(&self, _alloc: Global, k: u32, _scratch: &mut ()) -> Result<u32, OutOfMemory> {
        Ok(k)
    }
}

/// Three workers behind any gate: that each may begin is proved.
fn work_behind<R: Threads + Wait + Sync, G: Gate>(
    rt: &R,
    alloc: Global,
    gate: &G,
) -> Result<Vec<u32>, PoolFault> {
    run::<_, Desks, _, _>(rt, alloc, 4, 3, &Behind { gate }, gate)
}

#[test]
fn work_that_asks_for_the_gate(rt: HostRuntime) -> Result<(), Fail> {
    assert!(rt; work_behind(&rt, rt.alloc(), &Open)?.as_slice() == [0, 1, 2, 3].as_slice());
    Ok(())
}
