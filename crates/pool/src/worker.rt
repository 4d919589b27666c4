//! One worker: a seat, a scratch, and the answers that it gathers.
ghost use Rattle.std.specs.Prelude.{◌≡◌, [], IfOk};
ghost use Rattle.pool.specs.Work.{AreWorkerAnswers, CanWork};

use crate::dealer::Dealer;
use crate::gate::Gate;
use crate::job::Job;
use grid::OutOfMemory;
use std::alloc::Global;
use std::snapshot::Snapshot;
use std::thread::Promise;

/// What a worker returns: its seat, and each number that the seat was given with its answer.
#[derive(Drop)]
pub(crate) struct WorkerAnswers<S, T> {
    pub(crate) seat: S,
    pub(crate) pairs: Vec<(u32, T)>,
}

/// What a worker returns, if none of its allocations failed.
pub(crate) type WorkerResult<D, J> = Result<
    WorkerAnswers<<D as Dealer>::Seat, <J as Job>::Out>,
    OutOfMemory,
>;

/// The promise of the worker with this number: it works through all that its seat is given.
#[derive(Drop)]
pub(crate) struct WorksThrough<D, J> {
    pub(crate) dealer: Snapshot<D>,
    pub(crate) job: Snapshot<J>,
    pub(crate) number: u32,
}

impl<D: Dealer, J: Job> Promise<Result<WorkerAnswers<D::Seat, J::Out>, OutOfMemory>>
    for WorksThrough<D, J> {
    ghost kept_by = { λ p r. IfOk r (AreWorkerAnswers D.Dealer J.Job p.dealer.value p.job.value p.number) };
}

/// Works on each number that the seat is given, until none is left.
pub(crate) fn work_through<D: Dealer, J: Job, G: Gate>(
    alloc: Global,
    dealer: &D,
    job: &J,
    gate: &G,
    number: u32,
    mut seat: D::Seat,
) -> WorkerResult<D, J>
    requires seat { D.fits dealer.now seat }
    requires number { D.number seat ≡ number }
    requires nothing { D.given seat ≡ [] }
    requires can_work { CanWork D.Dealer J.Job G.Gate dealer.now job.now gate.now number }
    ensures { IfOk result (AreWorkerAnswers D.Dealer J.Job dealer.now job.now number) }
{
    let mut scratch = job.scratch(alloc)?;
    let mut pairs = Vec::new(alloc);
    while let Some(tile) = dealer.next(&mut seat) {
        gate.enter(number, tile);
        let answer = job.work(alloc, tile, &mut scratch)?;
        pairs.push((tile, answer))?;
    }
    Ok(WorkerAnswers { seat, pairs })
}
