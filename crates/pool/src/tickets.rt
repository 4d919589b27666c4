//! Work distribution by one shared counter.
ghost use Rattle.std.specs.Prelude.{◌≡◌, ◌<◌, ◌≤◌, ◌^◌, [], length, if◌then◌else◌};
ghost use Rattle.std.specs.Vec.{vec_capacity};
ghost use Rattle.pool.specs.Dealing.{Ascends};
ghost use Rattle.pool.specs.Handles.{counter_count, seats_of, knowledge_of};

use crate::counter::{Counter, CounterHandle};

mod calls;

/// A shared counter: all seats draw from it, so each draw gives the least number that no seat has.
#[derive(Drop)]
pub struct Tickets {
    counter: Counter,
    count: u32,
    lists: Vec<(Vec<u32>, bool)>,
    ghost counted: { counter_count counter ≡ count },
    ghost small: { count < 2 ^ 32 },
    ghost empty: { lists.items ≡ [] },
    ghost some: { 0 < seats_of counter },
    ghost room: { seats_of counter ≤ vec_capacity lists },
}

/// A worker's handle on `Tickets`.
#[derive(Drop)]
pub struct TicketSeat {
    number: u32,
    handle: CounterHandle,
    numbers: Vec<u32>,
    ended: bool,
    ghost one: { (knowledge_of handle).seats ≡ 1 },
    ghost same: { (knowledge_of handle).numbers ≡ numbers.items },
    ghost marked: { (knowledge_of handle).marks ≡ (if ended then 1 else 0) },
    ghost room: { (knowledge_of handle).count ≤ vec_capacity numbers },
    ghost short: { length numbers.items ≤ (knowledge_of handle).count },
    ghost ascends: { Ascends numbers.items },
}
