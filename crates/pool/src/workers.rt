//! A run: the workers are started, each in a thread of its own, and joined.
ghost use Rattle.std.specs.Prelude.{◌≡◌, ◌<◌, ◌≤◌, ℕ, true, [], IfOk, vec_len, vec_capacity};
ghost use Rattle.pool.specs.Work.{EachFrom, AreWorkerAnswers, IsPromised, AreDealt, AreWorkerResults, AllCanWork, CanWork, RightInOrder};

use crate::answers::gather;
use crate::dealer::Dealer;
use crate::fault::PoolFault;
use crate::gate::Gate;
use crate::job::Job;
use crate::worker::{WorkerResult, WorksThrough, work_through};
use std::alloc::Global;
use std::snapshot::Snapshot;
use std::sync::Wait;
use std::thread;
use std::thread::{PromisedHandle, Scope, Threads};

/// A worker that was started.
type Worker<D, J> = PromisedHandle<WorkerResult<D, J>, WorksThrough<D, J>>;

/// Starts a worker for each seat, in a thread of its own. Returns whether all were started.
fn start_all<'s, E, D: Dealer, J: Job, G: Gate>(
    alloc: Global,
    scope: &'s Scope<'s, E>,
    dealer: &'s D,
    job: &'s J,
    gate: &'s G,
    seats: Vec<D::Seat>,
    workers: &mut Vec<Worker<D, J>>,
) -> bool
    requires can_work { AllCanWork D.Dealer J.Job G.Gate dealer.now job.now gate.now (vec_len seats) }
    requires seats { AreDealt D.Dealer dealer.now seats.items }
    requires room { (vec_len workers.old ≡ 0) × (vec_len seats ≤ vec_capacity workers.old) }
    ensures promised { EachFrom (IsPromised dealer.now job.now) 0 workers.new.items }
    ensures started { result ≡ true → vec_len workers.new ≡ vec_len seats }
    ensures few { vec_len workers.new ≤ vec_len seats }
{
    for seat in seats {
        let number = workers.len() as u32;
        let promise = WorksThrough {
            dealer: Snapshot::of(dealer),
            job: Snapshot::of(job),
            number,
        };
        let started = scope.spawn_with(
            promise,
            move || -> WorkerResult<D, J>
                requires { D.fits dealer.now seat × (D.number seat ≡ number) × (D.given seat ≡ []) ×
                    CanWork D.Dealer J.Job G.Gate dealer.now job.now gate.now number }
                ensures { IfOk result (AreWorkerAnswers D.Dealer J.Job dealer.entry.now job.entry.now number) }
            { work_through(alloc, dealer, job, gate, number, seat) },
        );
        match started {
            Ok(worker) => workers.push_reserved(worker),
            Err(_) => return false,
        }
    }
    true
}

/// Joins each worker, and keeps its result. The contract alone speaks of the dealer and the job.
fn join_all<R: Threads, D: Dealer, J: Job>(
    rt: &R,
    workers: Vec<Worker<D, J>>,
    results: &mut Vec<WorkerResult<D, J>>,
    _dealer: &D,
    _job: &J,
)
    requires promised { EachFrom (IsPromised _dealer.now _job.now) 0 workers.items }
    requires room { (vec_len results.old ≡ 0) × (vec_len workers ≤ vec_capacity results.old) }
    ensures { AreWorkerResults D.Dealer J.Job _dealer.now _job.now (vec_len workers) results.new.items }
{
    for worker in workers {
        results.push_reserved(worker.join(rt));
    }
}

/// Starts one worker for each seat, runs `beside` on the calling thread, and then joins all workers that were started.
/// The handles are allocated before the first worker starts, so that none is left behind if memory runs out.
fn work_seats<'a, R: Threads + Wait + Sync, D: Dealer, J: Job, G: Gate, T: Drop, F: FnOnce() -> T>(
    rt: &'a R,
    alloc: Global,
    dealer: &'a D,
    job: &'a J,
    gate: &'a G,
    seats: Vec<D::Seat>,
    beside: F,
) -> (Result<Vec<WorkerResult<D, J>>, PoolFault>, T)
    requires can_work { AllCanWork D.Dealer J.Job G.Gate dealer.now job.now gate.now (vec_len seats) }
    requires seats { AreDealt D.Dealer dealer.now seats.items }
    requires beside { F.pre beside }
    ensures results { IfOk result.0 (λ results. AreWorkerResults D.Dealer J.Job dealer.now job.now (vec_len seats)
        results.items) }
    ensures beside { F.post beside result.1 }
{
    thread::scope(
        thread::scope_env(),
        rt,
        move |scope| -> (Result<Vec<WorkerResult<D, J>>, PoolFault>, T)
            requires { AllCanWork D.Dealer J.Job G.Gate dealer.now job.now gate.now (vec_len seats) ×
                AreDealt D.Dealer dealer.now seats.items × F.pre beside }
            ensures { IfOk result.0 (λ results. AreWorkerResults D.Dealer J.Job dealer.entry.now job.entry.now
                (vec_len seats) results.items) × F.post beside result.1 }
        {
            let count = seats.len();
            let (Ok(mut workers), Ok(mut results)) = (
                Vec::with_capacity(alloc, count),
                Vec::with_capacity(alloc, count),
            ) else {
                return (Err(PoolFault::OutOfMemory), beside());
            };
            let all_started = start_all(alloc, scope, dealer, job, gate, seats, &mut workers);
            let answer = beside();
            join_all(rt, workers, &mut results, dealer, job);
            let joined = if all_started {
                Ok(results)
            } else {
                Err(PoolFault::NoWorker)
            };
            (joined, answer)
        },
    )
}

/// Returns the answers of the job for the numbers below `n`, in their order, and the result of the call `beside`.
///
/// `workers` workers do the job, each in a thread of its own with its own seat and scratch. The calling thread does
/// none of it. Once the workers are started it calls `beside`, and then joins them all, also if the result is a fault.
/// Before a worker works on a number, it enters the gate for it under the number of its seat. The job may rely on what
/// the gate ensures by that.
///
/// The result is a fault only if an allocation failed (`PoolFault::OutOfMemory`) or a thread was not started
/// (`PoolFault::NoWorker`). Each number is given once, so that no number has no answer and none has two. `beside` is
/// called once, whether or not there is a fault.
pub fn run_beside<R: Threads + Wait + Sync, D: Dealer, J: Job, G: Gate, T: Drop, F: FnOnce() -> T>(
    rt: &R,
    alloc: Global,
    n: u32,
    workers: u32,
    job: &J,
    gate: &G,
    beside: F,
) -> (Result<Vec<J::Out>, PoolFault>, T)
    requires n { n ≤ 262144 }
    requires workers { (1 ≤ workers) × (workers ≤ 16) }
    requires can_work { (worker k : ℕ) → worker < workers → k < n → G.entered gate.now worker k → J.can_work job.now k }
    requires beside { F.pre beside }
    ensures len { IfOk result.0 (λ answers. vec_len answers ≡ n) }
    ensures right { IfOk result.0 (λ answers. RightInOrder (J.right job.now) answers.items) }
    ensures beside { F.post beside result.1 }
{
    let Ok((dealer, seats)) = D::deal(alloc, n, workers) else {
        return (Err(PoolFault::OutOfMemory), beside());
    };
    let (worked, answer) = work_seats(rt, alloc, &dealer, job, gate, seats, beside);
    (gather(alloc, dealer, job, n, worked), answer)
}

/// The answers of the job for the numbers below `n`, in their order: `run_beside` if the calling thread has nothing
/// else to do.
pub fn run<R: Threads + Wait + Sync, D: Dealer, J: Job, G: Gate>(
    rt: &R,
    alloc: Global,
    n: u32,
    workers: u32,
    job: &J,
    gate: &G,
) -> Result<Vec<J::Out>, PoolFault>
    requires n { n ≤ 262144 }
    requires workers { (1 ≤ workers) × (workers ≤ 16) }
    requires can_work { (worker k : ℕ) → worker < workers → k < n → G.entered gate.now worker k → J.can_work job.now k }
    ensures len { IfOk result (λ answers. vec_len answers ≡ n) }
    ensures right { IfOk result (λ answers. RightInOrder (J.right job.now) answers.items) }
{
    let (answers, ()) = run_beside::<_, D, _, _, _, _>(rt, alloc, n, workers, job, gate, || {});
    answers
}
