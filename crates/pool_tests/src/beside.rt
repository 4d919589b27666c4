//! The call that the calling thread makes concurrently with the workers.

use crate::waiting::Waiting;
use pool::{Desks, Open, PoolFault, run_beside};
use std::alloc::Global;
use std::sync::Wait;
use std::test::Fail;
use std::thread::Threads;

/// Has two workers do the job for three numbers, and concurrently makes a call that is counted. Returns the workers'
/// result, and how often the call was made before.
fn run_counted<R: Threads + Wait + Sync>(
    rt: &R,
    alloc: Global,
    job: &Waiting,
) -> (Result<Vec<bool>, PoolFault>, u64) {
    run_beside::<_, Desks, _, _, _, _>(rt, alloc, 3, 2, job, &Open, || { job.open() })
}

#[test]
fn the_call_is_made_while_the_workers_work(rt: HostRuntime) -> Result<(), Fail> {
    let job = Waiting::for_call(None);
    let (answers, calls) = run_counted(&rt, rt.alloc(), &job);
    assert!(rt; answers?.as_slice() == [true, true, true].as_slice());
    assert!(rt; calls == 0 && job.opened() == 1);
    Ok(())
}

#[test]
fn the_call_is_made_also_where_work_is_refused(rt: HostRuntime) -> Result<(), Fail> {
    for refused in 0..3 {
        let job = Waiting::for_call(Some(refused));
        let (answers, calls) = run_counted(&rt, rt.alloc(), &job);
        assert!(rt; matches!(answers, Err(PoolFault::OutOfMemory)));
        assert!(rt; calls == 0 && job.opened() == 1);
    }
    Ok(())
}
