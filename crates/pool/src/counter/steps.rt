//! The calls of a counter.
ghost use Rattle.std.specs.Prelude.{◌≡◌, ◌+◌, ◌^◌, ◌<◌, ◌≤◌, length, All, IfOk, IfSome, IfNone, ℕ};
ghost use Rattle.pool.specs.Counters.{times, once_below, first_handle, with_number, with_mark, without_one, one_seat, both};
ghost use Rattle.pool.specs.Handles.{counter_count, seats_of, knowledge_of, IsIn};

use super::{Counter, CounterHandle};
use crate::known::Limits;
use crate::rule::{Cut, Draw, JoinHandles};
use atomic_table::Table;
use std::alloc::{AllocError, Global};

impl Counter {
    /// A counter of `count` numbers, and one handle for all seats.
    pub fn new(
        alloc: Global,
        count: u64,
        seats: u64,
    ) -> Result<(Counter, CounterHandle), AllocError>
        requires { count + seats < 2 ^ 64 }
        ensures { IfOk result (λ r. (counter_count r.0 ≡ count) × (seats_of r.0 ≡ seats) × IsIn r.0 r.1 × (knowledge_of r.1 ≡ first_handle (record { count = count; seats = seats }))) }
    {
        let limits = Limits { count, seats };
        let (table, seat) = Table::of_words(alloc, &[0], &limits)?;
        Ok((Counter { table, count }, CounterHandle { seat }))
    }

    /// Cuts one seat off.
    pub fn cut(&self, handle: &mut CounterHandle) -> CounterHandle
        requires handle { IsIn self.now handle.old }
        requires seats { 1 < (knowledge_of handle.old).seats }
        requires unmarked { (knowledge_of handle.old).marks < (knowledge_of handle.old).seats }
        ensures handles { IsIn self.now handle.new × IsIn self.now result }
        ensures left { knowledge_of handle.new ≡ without_one (knowledge_of handle.old) }
        ensures right { knowledge_of result ≡ one_seat (knowledge_of handle.old) }
    {
        let seat = self.table.shared.split_seat::<Cut>(&mut handle.seat);
        CounterHandle { seat }
    }

    /// Draws the next number. Returns `None` if none is left.
    pub fn draw(&self, handle: &mut CounterHandle) -> Option<u64>
        requires handle { IsIn self.now handle.old }
        requires unmarked { (knowledge_of handle.old).marks < (knowledge_of handle.old).seats }
        ensures handle { IsIn self.now handle.new }
        ensures number { IfSome result (λ k. (k < counter_count self.now) × (knowledge_of handle.new ≡ with_number (knowledge_of handle.old) k)) }
        ensures rises { IfSome result (λ k. All (λ x. x < k) (knowledge_of handle.old).numbers × (length (knowledge_of handle.old).numbers ≤ k)) }
        ensures mark { IfNone result (knowledge_of handle.new ≡ with_mark (knowledge_of handle.old)) }
    {
        let number = self.table.shared.fetch_add::<Draw>(&mut handle.seat, 0, 1);
        (number < self.count).then_some(number)
    }

    /// Joins another handle to this one.
    pub fn join(&self, handle: &mut CounterHandle, other: CounterHandle)
        requires handle { IsIn self.now handle.old }
        requires other { IsIn self.now other }
        ensures handle { IsIn self.now handle.new }
        ensures both { knowledge_of handle.new ≡ both (knowledge_of handle.old) (knowledge_of other) }
    {
        let CounterHandle { seat } = other;
        self.table
            .shared
            .join_seat::<JoinHandles>(&mut handle.seat, seat);
    }

    /// Closes the counter. The handle that stands for all seats has each number at most once, and each number of the counter if a seat
    /// found none left.
    pub fn close(self, handle: CounterHandle)
        requires handle { IsIn self handle }
        requires all_seats { (knowledge_of handle).seats ≡ seats_of self }
        ensures once { (x : ℕ) → times x (knowledge_of handle).numbers ≤ once_below x (counter_count self) }
        ensures all { 0 < (knowledge_of handle).marks → (x : ℕ) → times x (knowledge_of handle).numbers ≡ once_below x (counter_count self) }
    {
        let Counter { table, count: _ } = self;
        let CounterHandle { seat } = handle;
        table.close_with(seat).free();
    }
}
