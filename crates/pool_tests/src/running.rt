//! Runs of the pool.
ghost use Rattle.std.specs.Prelude.{◌≡◌, ◌*◌, ◌≤◌};

use crate::waiting::Waiting;
use grid::OutOfMemory;
use pool::{Dealer, Desks, Gate, Job, Open, PoolFault, Tickets, run};
use std::alloc::Global;
use std::sync::Wait;
use std::sync::atomic::{AtomicU64, Ordering};
use std::test::Fail;
use std::thread;
use std::thread::Threads;

/// Squares numbers.
#[derive(Drop)]
struct Squares;

impl Job for Squares {
    type Out = u64;

    type Scratch = ();

    ghost right = { λ _ k answer. answer ≡ k * k };

    ghost fits = { λ _ _. Unit {0} };

    ghost can_work = { λ _ _. Unit {0} };

    fn scratch(&self, _alloc: Global) -> Result<(), OutOfMemory> {
        Ok(())
    }

    fn work(&self, _alloc: Global, k: u32, _scratch: &mut ()) -> Result<u64, OutOfMemory> {
        Ok(u64::from(k) * u64::from(k))
    }
}

#[test]
fn squares_in_order(rt: HostRuntime) -> Result<(), Fail> {
    let by_desks = run::<_, Desks, _, _>(&rt, rt.alloc(), 10, 3, &Squares, &Open)?;
    assert!(rt; by_desks.as_slice() == [0, 1, 4, 9, 16, 25, 36, 49, 64, 81].as_slice());
    let by_tickets = run::<_, Tickets, _, _>(&rt, rt.alloc(), 10, 3, &Squares, &Open)?;
    assert!(rt; by_tickets.as_slice() == by_desks.as_slice());
    Ok(())
}

/// Whether the answers for the numbers below `n` are their squares, with 1 to 16 workers.
fn always_squares<R: Threads + Wait + Sync, D: Dealer>(
    rt: &R,
    alloc: Global,
    n: u32,
) -> Result<bool, PoolFault>
    requires { n ≤ 262144 }
{
    for workers in 1..17u32 {
        let answers = run::<_, D, _, _>(rt, alloc, n, workers, &Squares, &Open)?;
        let right = answers
            .iter()
            .zip(0..u64::from(n))
            .all(|(answer, k)| *answer == k * k);
        if answers.len() != n as usize || !right {
            return Ok(false);
        }
    }
    Ok(true)
}

#[test]
fn many_runs(rt: HostRuntime) -> Result<(), Fail> {
    for _ in 0..20 {
        for n in [0u32, 1, 2, 17, 1000] {
            assert!(rt; always_squares::<_, Desks>(&rt, rt.alloc(), n)?);
            assert!(rt; always_squares::<_, Tickets>(&rt, rt.alloc(), n)?);
        }
    }
    Ok(())
}

#[test]
fn two_at_once(rt: HostRuntime) -> Result<(), Fail> {
    let by_tickets = run::<_, Tickets, _, _>(&rt, rt.alloc(), 2, 2, &Waiting::for_second(), &Open)?;
    assert!(rt; by_tickets.as_slice() == [true, true].as_slice());
    let by_desks = run::<_, Desks, _, _>(&rt, rt.alloc(), 2, 2, &Waiting::for_second(), &Open)?;
    assert!(rt; by_desks.as_slice() == [true, true].as_slice());
    Ok(())
}

/// Fails the work on one number, and counts the works that began and that ended.
#[derive(Drop)]
struct Refusing {
    refused: u32,
    scratches_left: AtomicU64,
    begun: AtomicU64,
    ended: AtomicU64,
}

impl Refusing {
    /// Fails the work on this number, and each scratch after this many.
    fn new(refused: u32, scratches: u64) -> Refusing {
        Refusing {
            refused,
            scratches_left: AtomicU64::new(scratches),
            begun: AtomicU64::new(0),
            ended: AtomicU64::new(0),
        }
    }

    fn begun(&self) -> u64 {
        self.begun.load(Ordering::SeqCst)
    }

    fn ended(&self) -> u64 {
        self.ended.load(Ordering::SeqCst)
    }
}

impl Job for Refusing {
    type Out = u32;

    type Scratch = ();

    ghost right = { λ _ k answer. answer ≡ k };

    ghost fits = { λ _ _. Unit {0} };

    ghost can_work = { λ _ _. Unit {0} };

    fn scratch(&self, _alloc: Global) -> Result<(), OutOfMemory> {
        let left = self.scratches_left.fetch_sub(1, Ordering::SeqCst);
        if left == 0 || left > 1000 {
            return Err(OutOfMemory);
        }
        Ok(())
    }

    fn work(&self, _alloc: Global, k: u32, _scratch: &mut ()) -> Result<u32, OutOfMemory> {
        self.begun.fetch_add(1, Ordering::SeqCst);
        if k == self.refused {
            return Err(OutOfMemory);
        }
        thread::yield_now();
        self.ended.fetch_add(1, Ordering::SeqCst);
        Ok(k)
    }
}

#[test]
fn refused_in_a_worker(rt: HostRuntime) -> Result<(), Fail> {
    for refused in 0..50 {
        let job = Refusing::new(refused, 3);
        let answers = run::<_, Desks, _, _>(&rt, rt.alloc(), 50, 3, &job, &Open);
        assert!(rt; matches!(answers, Err(PoolFault::OutOfMemory)));
        assert!(rt;
            job.begun() == 50 && job.ended() == 49,
            "a worker is still at work"
        );
    }
    Ok(())
}

#[test]
fn refused_a_scratch(rt: HostRuntime) -> Result<(), Fail> {
    let job = Refusing::new(50, 2);
    let answers = run::<_, Desks, _, _>(&rt, rt.alloc(), 50, 3, &job, &Open);
    assert!(rt; matches!(answers, Err(PoolFault::OutOfMemory)));
    assert!(rt;
        job.begun() == 50 && job.ended() == 50,
        "two workers do what there is"
    );
    let alone = Refusing::new(50, 0);
    let answers = run::<_, Tickets, _, _>(&rt, rt.alloc(), 50, 1, &alone, &Open);
    assert!(rt; matches!(answers, Err(PoolFault::OutOfMemory)) && alone.begun() == 0);
    Ok(())
}

/// Counts the workers' passes, and how often each tile is entered.
#[derive(Drop)]
struct Turnstile {
    passes: AtomicU64,
    tiles: AtomicU64,
}

impl Gate for Turnstile {
    fn enter(&self, worker: u32, tile: u32) {
        if worker < 3 && tile < 12 {
            self.passes.fetch_add(1, Ordering::SeqCst);
            self.tiles.fetch_add(1 << (5 * tile), Ordering::SeqCst);
        }
    }
}

#[test]
fn each_tile_is_entered_once(rt: HostRuntime) -> Result<(), Fail> {
    let gate = Turnstile {
        passes: AtomicU64::new(0),
        tiles: AtomicU64::new(0),
    };
    run::<_, Desks, _, _>(&rt, rt.alloc(), 12, 3, &Squares, &gate)?;
    assert!(rt; gate.passes.load(Ordering::SeqCst) == 12);
    assert!(rt; gate.tiles.load(Ordering::SeqCst) == 0x0084_2108_4210_8421);
    Ok(())
}

#[test]
fn faults_by_name(rt: HostRuntime) -> Result<(), Fail> {
    assert!(rt; PoolFault::OutOfMemory.number() == 1 && PoolFault::NoWorker.number() == 2);
    assert!(rt; PoolFault::OutOfMemory.name() == "OutOfMemory");
    assert!(rt; PoolFault::NoWorker.name() == "NoWorker");
    Ok(())
}
