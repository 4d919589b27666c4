//! The calls of `Tickets`.
ghost use Rattle.std.specs.Prelude.{◌≡◌, ◌+◌, ◌≤◌, ◌<◌, [], ◌∷◌, ◌++◌, length, true, false, All, map, IfOk, IfSome, IfNone};
ghost use Rattle.std.specs.List.{range_with_len};
ghost use Rattle.std.specs.Vec.{vec_len, vec_capacity};
ghost use Rattle.pool.specs.Counters.{both};
ghost use Rattle.pool.specs.Handles.{counter_count, seats_of, knowledge_of, IsIn};
ghost use Rattle.pool.specs.Dealing.{list_of, lists_of, NoneTwice, DealtOnce, SomeEnded, Ascends};
ghost use Rattle.pool.specs.Tickets.{tickets_count, tickets_seats, IsSeatOf, seat_list, seat_number, seat_given, seat_ended};

use super::{TicketSeat, Tickets};
use crate::counter::{Counter, CounterHandle};
use crate::dealer::Dealer;
use crate::settled::Settled;
use grid::OutOfMemory;
use std::alloc::Global;

impl TicketSeat {
    /// A seat that was given nothing, with capacity for `n` numbers.
    fn new(
        alloc: Global,
        number: u32,
        n: u32,
        handle: CounterHandle,
    ) -> Result<TicketSeat, OutOfMemory>
        requires { ((knowledge_of handle).seats ≡ 1) × ((knowledge_of handle).numbers ≡ []) × ((knowledge_of handle).marks ≡ 0) × ((knowledge_of handle).count ≡ n) }
        ensures { IfOk result (λ s. (s.number ≡ number) × (s.handle ≡ handle) × (s.numbers.items ≡ []) × (s.ended ≡ false)) }
    {
        let numbers = Vec::with_capacity(alloc, n as usize)?;
        Ok(TicketSeat {
            number,
            handle,
            numbers,
            ended: false,
        })
    }
}

// Joins the seat's handle to the others, and keeps its list.
fn gather(
    counter: &Counter,
    whole: &mut CounterHandle,
    lists: &mut Vec<(Vec<u32>, bool)>,
    seat: TicketSeat,
)
    requires whole { IsIn counter.now whole.old }
    requires seat { IsIn counter.now seat.handle }
    requires room { vec_len lists.old < vec_capacity lists.old }
    ensures whole { IsIn counter.now whole.new × (knowledge_of whole.new ≡ both (knowledge_of whole.old) (knowledge_of seat.handle)) }
    ensures lists { map list_of lists.new.items ≡ map list_of lists.old.items ++ (seat.numbers.items, seat.ended) ∷ [] }
    ensures room { (vec_len lists.new ≡ vec_len lists.old + 1) × (vec_capacity lists.new ≡ vec_capacity lists.old) }
{
    let TicketSeat {
        number: _,
        handle,
        numbers,
        ended,
    } = seat;
    counter.join(whole, handle);
    lists.push_reserved((numbers, ended));
}

impl Tickets {
    fn gather_all(self, mut seats: Vec<TicketSeat>) -> Settled
        requires seats { vec_len seats ≡ seats_of self.counter }
        requires some { 0 < vec_len seats }
        requires fits { All (λ s. IsIn self.counter s.handle) seats.items }
        ensures lists { lists_of result ≡ map seat_list seats.items }
        ensures twice { NoneTwice (counter_count self.counter) (lists_of result) }
        ensures once { SomeEnded (lists_of result) → DealtOnce (counter_count self.counter) (lists_of result) }
    {
        let Tickets {
            counter,
            count: _,
            mut lists,
        } = self;
        let TicketSeat {
            number: _,
            handle: mut whole,
            numbers,
            ended,
        } = seats.remove(0);
        lists.push_reserved((numbers, ended));
        for seat in seats {
            gather(&counter, &mut whole, &mut lists, seat);
        }
        counter.close(whole);
        Settled { lists }
    }
}

impl Dealer for Tickets {
    type Seat = TicketSeat;

    ghost count = { tickets_count };

    ghost seat_count = { tickets_seats };

    ghost fits = { IsSeatOf };

    ghost number = { seat_number };

    ghost given = { seat_given };

    ghost ended = { seat_ended };

    ghost in_order = { λ _ _ given. Ascends given };

    fn deal(alloc: Global, n: u32, seats: u32) -> Result<(Tickets, Vec<TicketSeat>), OutOfMemory> {
        let lists = Vec::with_capacity(alloc, seats as usize)?;
        let mut row = Vec::with_capacity(alloc, seats as usize)?;
        let (counter, mut rest) = Counter::new(alloc, u64::from(n), u64::from(seats))?;
        for number in 0..seats - 1 {
            let handle = counter.cut(&mut rest);
            row.push_reserved(TicketSeat::new(alloc, number, n, handle)?);
        }
        row.push_reserved(TicketSeat::new(alloc, seats - 1, n, rest)?);
        let dealer = Tickets {
            counter,
            count: n,
            lists,
        };
        Ok((dealer, row))
    }

    /// The next number: the least that no seat has been given.
    fn next(&self, seat: &mut TicketSeat) -> Option<u32>
        requires { IsSeatOf self.now seat.old }
        ensures fits { IsSeatOf self.now seat.new × (seat_number seat.new ≡ seat_number seat.old) }
        ensures some { IfSome result (λ k. (k < tickets_count self.now) × (seat_given seat.new ≡ seat_given seat.old ++ k ∷ []) × (seat_ended seat.old ≡ false) × (seat_ended seat.new ≡ false)) }
        ensures none { IfNone result ((seat_given seat.new ≡ seat_given seat.old) × (seat_ended seat.new ≡ true)) }
        ensures short { length (seat_given seat.new) ≤ tickets_count self.now }
        ensures order { Ascends (seat_given seat.new) }
    {
        if seat.ended {
            return None;
        }
        match self.counter.draw(&mut seat.handle) {
            Some(k) => {
                let number = k as u32;
                seat.numbers.push_reserved(number);
                Some(number)
            }
            None => {
                seat.ended = true;
                None
            }
        }
    }

    fn settle(self, seats: Vec<TicketSeat>) -> Settled
        requires seats { map seat_number seats.items ≡ range_with_len 0 (tickets_seats self) }
        requires fits { All (λ s. IsSeatOf self s) seats.items }
        ensures lists { lists_of result ≡ map (λ s. (seat_given s, seat_ended s)) seats.items }
        ensures twice { NoneTwice (tickets_count self) (lists_of result) }
        ensures once { SomeEnded (lists_of result) → DealtOnce (tickets_count self) (lists_of result) }
    {
        self.gather_all(seats)
    }
}
