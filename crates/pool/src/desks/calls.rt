//! The calls of `Desks`.
ghost use Rattle.std.specs.Prelude.{◌≡◌, ◌+◌, ◌*◌, ◌%◌, ◌≤◌, ◌<◌, ◌++◌, [], ◌∷◌, length, map, All, IfOk, IfSome, IfNone, true, false};
ghost use Rattle.std.specs.List.{range_with_len};
ghost use Rattle.std.specs.Vec.{vec_len, vec_capacity};
ghost use Rattle.pool.specs.Dealing.{lists_of, NoneTwice, DealtOnce, SomeEnded};
ghost use Rattle.pool.specs.Desks.{IsSeatOf, GoesRound, desks_count, desks_seats, seat_number, seat_given, seat_ended, seat_list};

use super::deals::{cut_row, make_desks};
use super::rows::{close_all, join_row};
use super::{DeskSeat, Desks};
use crate::counter::CounterHandle;
use crate::dealer::Dealer;
use crate::settled::Settled;
use grid::OutOfMemory;
use std::alloc::Global;

impl Desks {
    // One draw at the desk whose turn it is.
    fn draw_in_turn(&self, seat: &mut DeskSeat) -> Option<u32>
        requires seat { IsSeatOf self.now seat.old }
        requires left { seat.old.passed < length self.now.counters.items }
        ensures seat { IsSeatOf self.now seat.new × (seat.new.number ≡ seat.old.number) }
        ensures some { IfSome result (λ k. (k < self.now.count) × (seat_given seat.new ≡ seat_given seat.old ++ k ∷ []) × (seat.new.passed ≡ seat.old.passed)) }
        ensures none { IfNone result ((seat_given seat.new ≡ seat_given seat.old) × (seat.new.passed ≡ seat.old.passed + 1)) }
    {
        let desks = self.counters.len();
        let desk = (seat.number as usize + seat.passed as usize) % desks;
        match self.counters[desk].draw(&mut seat.handles[desk]) {
            Some(j) => {
                let number = (desk as u64 + j * desks as u64) as u32;
                seat.numbers.push_reserved(number);
                Some(number)
            }
            None => {
                seat.passed += 1;
                None
            }
        }
    }

    fn next_number(&self, seat: &mut DeskSeat) -> Option<u32>
        requires { IsSeatOf self.now seat.old }
        ensures seat { IsSeatOf self.now seat.new × (seat.new.number ≡ seat.old.number) }
        ensures some { IfSome result (λ k. (k < self.now.count) × (seat_given seat.new ≡ seat_given seat.old ++ k ∷ []) × (seat_ended seat.old ≡ false) × (seat_ended seat.new ≡ false)) }
        ensures none { IfNone result ((seat_given seat.new ≡ seat_given seat.old) × (seat_ended seat.new ≡ true)) }
        ensures order { GoesRound (length self.now.counters.items) seat.new.number (seat_given seat.new) }
    {
        while (seat.passed as usize) < self.counters.len() {
            if let Some(number) = self.draw_in_turn(seat) {
                return Some(number);
            }
        }
        None
    }

    fn gather_all(self, mut seats: Vec<DeskSeat>) -> Settled
        requires seats { vec_len seats ≡ length self.counters.items }
        requires fits { All (λ s. IsSeatOf self s) seats.items }
        ensures lists { lists_of result ≡ map seat_list seats.items }
        ensures twice { NoneTwice self.count (lists_of result) }
        ensures once { SomeEnded (lists_of result) → DealtOnce self.count (lists_of result) }
    {
        let Desks {
            counters,
            count: _,
            mut lists,
        } = self;
        let DeskSeat {
            number: _,
            passed,
            handles: mut whole,
            numbers,
        } = seats.remove(0);
        let ended = passed as usize == whole.len();
        lists.push_reserved((numbers, ended));
        for seat in seats {
            let DeskSeat {
                number: _,
                passed,
                handles,
                numbers,
            } = seat;
            let ended = passed as usize == handles.len();
            join_row(&counters, &mut whole, handles);
            lists.push_reserved((numbers, ended));
        }
        close_all(counters, whole);
        Settled { lists }
    }
}

impl DeskSeat {
    /// A seat that was given nothing, with capacity for `n` numbers.
    fn new(
        alloc: Global,
        number: u32,
        n: u32,
        handles: Vec<CounterHandle>,
    ) -> Result<DeskSeat, OutOfMemory>
        ensures { IfOk result (λ s. (s.number ≡ number) × (s.passed ≡ 0) × (s.handles ≡ handles) × (s.numbers.items ≡ []) × (n ≤ vec_capacity s.numbers)) }
    {
        let numbers = Vec::with_capacity(alloc, n as usize)?;
        Ok(DeskSeat {
            number,
            passed: 0,
            handles,
            numbers,
        })
    }
}

impl Dealer for Desks {
    type Seat = DeskSeat;

    ghost count = { desks_count };

    ghost seat_count = { desks_seats };

    ghost fits = { IsSeatOf };

    ghost number = { seat_number };

    ghost given = { seat_given };

    ghost ended = { seat_ended };

    ghost in_order = { λ dealer s given. GoesRound (desks_seats dealer) s given };

    fn deal(alloc: Global, n: u32, seats: u32) -> Result<(Desks, Vec<DeskSeat>), OutOfMemory> {
        let lists = Vec::with_capacity(alloc, seats as usize)?;
        let mut row = Vec::with_capacity(alloc, seats as usize)?;
        let (counters, mut rest) = make_desks(alloc, n, seats)?;
        for number in 0..seats - 1 {
            let handles = cut_row(alloc, &counters, &mut rest)?;
            row.push_reserved(DeskSeat::new(alloc, number, n, handles)?);
        }
        row.push_reserved(DeskSeat::new(alloc, seats - 1, n, rest)?);
        let dealer = Desks {
            counters,
            count: n,
            lists,
        };
        Ok((dealer, row))
    }

    /// The next number: from the seat's own desk while that has one, then from the desks after it in their turn.
    fn next(&self, seat: &mut DeskSeat) -> Option<u32>
        requires { IsSeatOf self.now seat.old }
        ensures fits { IsSeatOf self.now seat.new × (seat_number seat.new ≡ seat_number seat.old) }
        ensures some { IfSome result (λ k. (k < desks_count self.now) × (seat_given seat.new ≡ seat_given seat.old ++ k ∷ []) × (seat_ended seat.old ≡ false) × (seat_ended seat.new ≡ false)) }
        ensures none { IfNone result ((seat_given seat.new ≡ seat_given seat.old) × (seat_ended seat.new ≡ true)) }
        ensures short { length (seat_given seat.new) ≤ desks_count self.now }
        ensures order { GoesRound (desks_seats self.now) (seat_number seat.new) (seat_given seat.new) }
    {
        self.next_number(seat)
    }

    fn settle(self, seats: Vec<DeskSeat>) -> Settled
        requires seats { map seat_number seats.items ≡ range_with_len 0 (desks_seats self) }
        requires fits { All (λ s. IsSeatOf self s) seats.items }
        ensures lists { lists_of result ≡ map (λ s. (seat_given s, seat_ended s)) seats.items }
        ensures twice { NoneTwice (desks_count self) (lists_of result) }
        ensures once { SomeEnded (lists_of result) → DealtOnce (desks_count self) (lists_of result) }
    {
        self.gather_all(seats)
    }
}
