//! The order of desks, compared with deques that seats pop from and steal from.
ghost use Rattle.std.specs.Prelude.{◌<◌, ◌≤◌, All, vec_len};

use crossbeam_deque::{Steal, Stealer, Worker};
use pool::{Dealer, Desks};
use std::alloc::{AllocError, Global};
use std::test::Fail;

/// A first-in first-out deque for each seat.
#[derive(Drop)]
struct Deques {
    own: Vec<Worker<u32>>,
    stealers: Vec<Stealer<u32>>,
}

impl Deques {
    /// The deque of each seat has its desk's numbers, in ascending order.
    fn new(alloc: Global, n: u32, seats: u32) -> Result<Deques, AllocError> {
        let mut own = Vec::new(alloc);
        let mut stealers = Vec::new(alloc);
        for desk in 0..seats {
            let mut deque = Worker::new_fifo(alloc, 32)?;
            for k in 0..n {
                if k % seats == desk && deque.push(k).is_err() {
                    return Err(AllocError);
                }
            }
            stealers.push(deque.stealer()?)?;
            own.push(deque)?;
        }
        Ok(Deques { own, stealers })
    }

    /// A number of the seat's own deque, or else one stolen from the next deques in their turn.
    fn next(&mut self, seat: usize) -> Option<u32> {
        if let Some(own) = self.own.get_mut(seat) {
            if let Some(k) = own.pop() {
                return Some(k);
            }
        }
        let (before, rest) = self.stealers.split_at(seat.min(self.stealers.len()));
        for other in rest.iter().skip(1).chain(before.iter()) {
            if let Steal::Success(k) = other.steal() {
                return Some(k);
            }
        }
        None
    }
}

/// Calls the first seat so many times, and puts it behind the others. Returns whether it was given what the deques give
/// the seat of this number, and whether the last call returned `None`.
fn call_in_turn<D: Dealer>(
    dealer: &D,
    seats: &mut Vec<D::Seat>,
    deques: &mut Deques,
    number: usize,
    times: u32,
) -> (bool, bool)
    requires fits { All (D.fits dealer.now) seats.old.items }
    requires some { 0 < vec_len seats.old }
    ensures fits { All (D.fits dealer.now) seats.new.items }
    ensures some { 0 < vec_len seats.new }
{
    let mut seat = seats.remove(0);
    let (mut agrees, mut has_ended) = (true, false);
    for _ in 0..times {
        let answer = dealer.next(&mut seat);
        agrees &= answer == deques.next(number);
        has_ended = answer.is_none();
    }
    seats.push_reserved(seat);
    (agrees, has_ended)
}

/// Whether the desks give what the deques do. The calls go round the seats, so many in a row for each, until each seat
/// returns `None`.
fn agrees(alloc: Global, n: u32, count: u32, in_a_row: u32) -> Result<bool, Fail>
    requires n { n ≤ 20 }
    requires count { (1 ≤ count) × (count ≤ 4) }
{
    let (dealer, mut seats) = Desks::deal(alloc, n, count)?;
    let mut deques = Deques::new(alloc, n, count)?;
    let mut all_ended = false;
    for _ in 0..n + 1 {
        all_ended = true;
        for seat in 0..count {
            let (agrees, has_ended) = call_in_turn(
                &dealer,
                &mut seats,
                &mut deques,
                seat as usize,
                in_a_row,
            );
            if !agrees {
                return Ok(false);
            }
            all_ended &= has_ended;
        }
    }
    Ok(all_ended)
}

// Seats that are called once each find their own desks empty at the same time. With more calls in a row they steal.
#[test]
fn desks_are_deques(rt: HostRuntime) -> Result<(), Fail> {
    for n in 0..21u32 {
        for count in 1..5u32 {
            for in_a_row in 1..22u32 {
                assert!(rt;
                    agrees(rt.alloc(), n, count, in_a_row)?,
                    "{n} numbers, {count} seats, {in_a_row} calls in a row"
                );
            }
        }
    }
    Ok(())
}
