//! The answers of all workers, put at the places of their numbers.
ghost use Rattle.std.specs.Prelude.{◌≡◌, ◌<◌, ℕ, Some, None, IsTrue, is_some, All, map, IfOk, vec_len};
ghost use Rattle.pool.specs.Counters.{times};
ghost use Rattle.pool.specs.Work.{AreWorkerResults, IsRightAnswer, RightInOrder, AreRight, HasAnswer};

use crate::dealer::Dealer;
use crate::fault::PoolFault;
use crate::job::Job;
use crate::worker::{WorkerAnswers, WorkerResult};
use grid::OutOfMemory;
use std::alloc::Global;

/// `n` places without an answer.
fn empty_places<T: Drop>(alloc: Global, n: u32) -> Result<Vec<Option<T>>, OutOfMemory>
    ensures len { IfOk result (λ places. vec_len places ≡ n) }
    ensures none { IfOk result (λ places. All (λ place. place ≡ None) places.items) }
{
    let mut places = Vec::with_capacity(alloc, n as usize)?;
    for _ in 0..n {
        places.push_reserved(None);
    }
    Ok(places)
}

/// Puts each answer at the place of its number. The contract alone speaks of the job.
fn put<J: Job>(_job: &J, places: &mut Vec<Option<J::Out>>, pairs: Vec<(u32, J::Out)>)
    requires pairs { All (IsRightAnswer (J.right _job.now) (vec_len places.old)) pairs.items }
    requires right { AreRight (J.right _job.now) places.old.items }
    ensures len { vec_len places.new ≡ vec_len places.old }
    ensures right { AreRight (J.right _job.now) places.new.items }
    ensures kept { (k : ℕ) → HasAnswer places.old.items k → HasAnswer places.new.items k }
    ensures put { (k : ℕ) → 0 < times k (map (λ pair. pair.0) pairs.items) → HasAnswer places.new.items k }
{
    for (number, answer) in pairs {
        places[number as usize] = Some(answer);
    }
}

/// The answers, if each place has one.
fn answers_of<T: Drop>(alloc: Global, places: Vec<Option<T>>) -> Result<Vec<T>, OutOfMemory>
    requires { All (λ place. IsTrue (is_some place)) places.items }
    ensures { IfOk result (λ answers. map (λ answer. Some answer) answers.items ≡ places.items) }
{
    let mut answers = Vec::with_capacity(alloc, places.len())?;
    for place in places {
        let Some(answer) = place else { unreachable!() };
        answers.push_reserved(answer);
    }
    Ok(answers)
}

/// The answers of the workers, in the order of their numbers. If all workers were started and none ran out of memory,
/// each number was given once, so that each place gets its answer.
pub(crate) fn gather<D: Dealer, J: Job>(
    alloc: Global,
    dealer: D,
    job: &J,
    n: u32,
    worked: Result<Vec<WorkerResult<D, J>>, PoolFault>,
) -> Result<Vec<J::Out>, PoolFault>
    requires count { D.count dealer ≡ n }
    requires seats { 0 < D.seat_count dealer }
    requires results { IfOk worked (λ results. AreWorkerResults D.Dealer J.Job dealer job.now (D.seat_count dealer)
        results.items) }
    ensures len { IfOk result (λ answers. vec_len answers ≡ n) }
    ensures right { IfOk result (λ answers. RightInOrder (J.right job.now) answers.items) }
{
    let results = worked?;
    let mut seats = Vec::with_capacity(alloc, results.len())?;
    let mut places = empty_places(alloc, n)?;
    for worker in results {
        let WorkerAnswers { seat, pairs } = worker?;
        put(job, &mut places, pairs);
        seats.push_reserved(seat);
    }
    dealer.settle(seats);
    Ok(answers_of(alloc, places)?)
}
