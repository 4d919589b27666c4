//! Dealing on one thread.
ghost use Rattle.std.specs.Prelude.{◌≤◌};

use grid::OutOfMemory;
use pool::{Dealer, Desks, Settled, Tickets};
use std::alloc::Global;
use std::test::Fail;

/// What the calls of two seats return. Each call names its seat.
fn call_all<D: Dealer>(
    alloc: Global,
    n: u32,
    calls: &[u32],
) -> Result<(Vec<Option<u32>>, Settled), OutOfMemory>
    requires { n ≤ 262144 }
{
    let (dealer, mut seats) = D::deal(alloc, n, 2)?;
    let mut first = seats.remove(0);
    let mut second = seats.remove(0);
    let mut answers = Vec::new(alloc);
    for call in calls {
        let answer = if *call == 0 {
            dealer.next(&mut first)
        } else {
            dealer.next(&mut second)
        };
        if answers.push(answer).is_err() {
            return Err(OutOfMemory);
        }
    }
    seats.push_reserved(first);
    seats.push_reserved(second);
    Ok((answers, dealer.settle(seats)))
}

#[test]
fn tickets_in_turn(rt: HostRuntime) -> Result<(), Fail> {
    let (answers, settled) = call_all::<Tickets>(rt.alloc(), 3, &[0, 0, 1, 0, 1])?;
    assert!(rt; answers.as_slice() == [Some(0), Some(1), Some(2), None, None].as_slice());
    assert!(rt; settled.lists.len() == 2);
    assert!(rt; settled.given(0) == [0, 1].as_slice() && settled.given(1) == [2].as_slice());
    assert!(rt; settled.ended(0) && settled.ended(1));
    Ok(())
}

#[test]
fn desks_in_turn(rt: HostRuntime) -> Result<(), Fail> {
    let (answers, settled) = call_all::<Desks>(rt.alloc(), 3, &[1, 1, 0, 0, 1])?;
    assert!(rt; answers.as_slice() == [Some(1), Some(0), Some(2), None, None].as_slice());
    assert!(rt; settled.lists.len() == 2);
    assert!(rt; settled.given(0) == [2].as_slice() && settled.given(1) == [1, 0].as_slice());
    assert!(rt; settled.ended(0) && settled.ended(1));
    Ok(())
}

#[test]
fn desks_by_one_seat(rt: HostRuntime) -> Result<(), Fail> {
    let (answers, settled) = call_all::<Desks>(rt.alloc(), 5, &[0, 0, 0, 0, 0, 0, 0, 1])?;
    let wanted = [
        Some(0),
        Some(2),
        Some(4),
        Some(1),
        Some(3),
        None,
        None,
        None,
    ];
    assert!(rt; answers.as_slice() == wanted.as_slice());
    assert!(rt; settled.lists.len() == 2);
    assert!(rt; settled.given(0) == [0, 2, 4, 1, 3].as_slice() && settled.given(1).is_empty());
    assert!(rt; settled.ended(0) && settled.ended(1));
    Ok(())
}

#[test]
fn seats_that_have_not_ended(rt: HostRuntime) -> Result<(), Fail> {
    let (_, settled) = call_all::<Desks>(rt.alloc(), 3, &[1])?;
    assert!(rt; settled.lists.len() == 2);
    assert!(rt; settled.given(0).is_empty() && settled.given(1) == [1].as_slice());
    assert!(rt; !settled.ended(0) && !settled.ended(1));
    Ok(())
}

#[test]
fn no_numbers(rt: HostRuntime) -> Result<(), Fail> {
    let (by_desks, _) = call_all::<Desks>(rt.alloc(), 0, &[0, 1, 0])?;
    assert!(rt; by_desks.as_slice() == [None, None, None].as_slice());
    let (by_tickets, _) = call_all::<Tickets>(rt.alloc(), 0, &[0, 1, 0])?;
    assert!(rt; by_tickets.as_slice() == [None, None, None].as_slice());
    Ok(())
}

/// Whether the first call of each of three seats returns that no number is left.
fn ends_at_once<D: Dealer>(alloc: Global) -> Result<bool, OutOfMemory> {
    let (dealer, mut seats) = D::deal(alloc, 0, 3)?;
    let mut first = seats.remove(0);
    let mut second = seats.remove(0);
    let mut third = seats.remove(0);
    let first = dealer.next(&mut first).is_none();
    let second = dealer.next(&mut second).is_none();
    let third = dealer.next(&mut third).is_none();
    Ok(seats.is_empty() && first && second && third)
}

#[test]
fn no_numbers_for_three_seats(rt: HostRuntime) -> Result<(), Fail> {
    assert!(rt; ends_at_once::<Tickets>(rt.alloc())?);
    assert!(rt; ends_at_once::<Desks>(rt.alloc())?);
    Ok(())
}
