//! The counters of the desks, and a seat's handles on them.
ghost use Rattle.std.specs.Prelude.{◌≡◌, ◌+◌, ◌≤◌, ◌<◌, ℕ, [], length, slice_index_or, IfOk};
ghost use Rattle.std.specs.Vec.{vec_capacity};
ghost use Rattle.pool.specs.Counters.{without_one, one_seat};
ghost use Rattle.pool.specs.Handles.{knowledge_of};
ghost use Rattle.pool.specs.Rows.{AreDesks, IsRow, AreUncut};

use super::DeskSeat;
use crate::counter::{Counter, CounterHandle};
use grid::OutOfMemory;
use std::alloc::Global;

/// The counters of the desks, and on each one handle for all seats.
pub(super) fn make_desks(
    alloc: Global,
    n: u32,
    desks: u32,
) -> Result<(Vec<Counter>, Vec<CounterHandle>), OutOfMemory>
    requires { (n ≤ 262144) × (0 < desks) × (desks ≤ 16) }
    ensures counters { IfOk result (λ r. (length r.0.items ≡ desks) × AreDesks n r.0.items) }
    ensures row { IfOk result (λ r. IsRow r.0.items r.1.items × AreUncut desks r.0.items r.1.items) }
{
    let mut counters = Vec::with_capacity(alloc, desks as usize)?;
    let mut rest = Vec::with_capacity(alloc, desks as usize)?;
    for desk in 0..desks {
        let count = (n + desks - 1 - desk) / desks;
        let (counter, handle) = Counter::new(alloc, u64::from(count), u64::from(desks))?;
        counters.push_reserved(counter);
        rest.push_reserved(handle);
    }
    Ok((counters, rest))
}

/// Cuts one seat's handles off.
pub(super) fn cut_row(
    alloc: Global,
    counters: &Vec<Counter>,
    rest: &mut Vec<CounterHandle>,
) -> Result<Vec<CounterHandle>, OutOfMemory>
    requires row { IsRow counters.now.items rest.old.items }
    requires uncut { (d : ℕ) (p : _) → d < length counters.now.items → (1 < (knowledge_of (slice_index_or rest.old.items d p)).seats) × ((knowledge_of (slice_index_or rest.old.items d p)).marks ≡ 0) }
    ensures rows { IfOk result (λ r. IsRow counters.now.items rest.new.items × IsRow counters.now.items r.items) }
    ensures rest { IfOk result (λ _. (d : ℕ) (p q : _) → d < length counters.now.items → knowledge_of (slice_index_or rest.new.items d p) ≡ without_one (knowledge_of (slice_index_or rest.old.items d q))) }
    ensures row { IfOk result (λ r. (d : ℕ) (p q : _) → d < length counters.now.items → knowledge_of (slice_index_or r.items d p) ≡ one_seat (knowledge_of (slice_index_or rest.old.items d q))) }
{
    let mut row = Vec::with_capacity(alloc, counters.len())?;
    for desk in 0..counters.len() {
        row.push_reserved(counters[desk].cut(&mut rest[desk]));
    }
    Ok(row)
}
