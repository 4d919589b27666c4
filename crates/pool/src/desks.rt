//! Work distribution by stealing: a counter for each seat.
ghost use Rattle.std.specs.Prelude.{◌≡◌, ◌<◌, ◌≤◌, ◌^◌, [], length};
ghost use Rattle.std.specs.Vec.{vec_capacity};
ghost use Rattle.pool.specs.Rows.{AreDesks};

use crate::counter::{Counter, CounterHandle};

mod calls;
mod deals;
mod rows;

/// Work-stealing queues, one for each seat, called desks: desk d has the numbers d, d + seats, d + 2 * seats and so on
/// below the count.
///
/// A seat draws from its own desk, the one with its number, until that is empty, and then from the desks after it,
/// cyclically. So threads mostly use counters of their own, and a thread that is done early takes over what others have
/// left.
#[derive(Drop)]
pub struct Desks {
    counters: Vec<Counter>,
    count: u32,
    lists: Vec<(Vec<u32>, bool)>,
    ghost counters_are: { AreDesks count counters.items },
    ghost some: { 0 < length counters.items },
    ghost few: { length counters.items ≤ 16 },
    ghost small: { count ≤ 262144 },
    ghost empty: { lists.items ≡ [] },
    ghost room: { length counters.items ≤ vec_capacity lists },
}

/// A worker's handle on `Desks`, with a handle on each desk's counter.
#[derive(Drop)]
pub struct DeskSeat {
    number: u32,
    /// How many desks it has found empty, from its own on.
    passed: u32,
    /// Its handle on the counter of each desk.
    handles: Vec<CounterHandle>,
    numbers: Vec<u32>,
}
