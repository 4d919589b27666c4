//! Dealing to four threads, each with a seat of its own.
ghost use Rattle.std.specs.Prelude.{◌≡◌, true};

use grid::OutOfMemory;
use pool::{Dealer, Desks, Settled, Tickets};
use std::alloc::{AllocError, Global};
use std::test::Fail;
use std::thread::{Threads, join};

/// Draws until none is left.
fn drain<D: Dealer>(dealer: &D, mut seat: D::Seat) -> D::Seat
    requires { D.fits dealer.now seat }
    ensures fits { D.fits dealer.now result × (D.number result ≡ D.number seat) }
    ensures ended { D.ended result ≡ true }
{
    while dealer.next(&mut seat).is_some() {}
    seat
}

/// Two threads draw until none is left.
fn drain_both<D: Dealer, R: Threads + Sync>(
    rt: &R,
    dealer: &D,
    first: D::Seat,
    second: D::Seat,
) -> (D::Seat, D::Seat)
    requires first { D.fits dealer.now first }
    requires second { D.fits dealer.now second }
    ensures first { D.fits dealer.now result.0 × (D.number result.0 ≡ D.number first) }
    ensures second { D.fits dealer.now result.1 × (D.number result.1 ≡ D.number second) }
{
    join(
        rt,
        || -> D::Seat
            requires { D.fits dealer.now first }
            ensures { D.fits dealer.entry.now result × (D.number result ≡ D.number first) }
        { drain(dealer, first) },
        || -> D::Seat
            requires { D.fits dealer.now second }
            ensures { D.fits dealer.entry.now result × (D.number result ≡ D.number second) }
        { drain(dealer, second) },
    )
}

fn by_four<D: Dealer, R: Threads + Sync>(rt: &R, alloc: Global) -> Result<Settled, OutOfMemory> {
    let (dealer, mut seats) = D::deal(alloc, 1000, 4)?;
    let first = seats.remove(0);
    let second = seats.remove(0);
    let third = seats.remove(0);
    let fourth = seats.remove(0);
    let ((first, second), (third, fourth)) = join(
        rt,
        || -> (D::Seat, D::Seat)
            requires { D.fits dealer first × D.fits dealer second }
            ensures { (D.fits dealer result.0 × (D.number result.0 ≡ D.number first)) × (D.fits dealer result.1 × (D.number result.1 ≡ D.number second)) }
        { drain_both(rt, &dealer, first, second) },
        || -> (D::Seat, D::Seat)
            requires { D.fits dealer third × D.fits dealer fourth }
            ensures { (D.fits dealer result.0 × (D.number result.0 ≡ D.number third)) × (D.fits dealer result.1 × (D.number result.1 ≡ D.number fourth)) }
        { drain_both(rt, &dealer, third, fourth) },
    );
    seats.push_reserved(first);
    seats.push_reserved(second);
    seats.push_reserved(third);
    seats.push_reserved(fourth);
    Ok(dealer.settle(seats))
}

/// Whether the lists hold 0 to 999, each once.
fn has_all(alloc: Global, settled: &Settled) -> Result<bool, AllocError> {
    let mut all = Vec::new(alloc);
    for (numbers, ended) in &settled.lists {
        if !*ended {
            return Ok(false);
        }
        for k in numbers {
            all.push(*k)?;
        }
    }
    all.sort_unstable();
    Ok(all.len() == 1000 && all.iter().zip(0..1000u32).all(|(k, i)| *k == i))
}

#[test]
fn four_threads_by_tickets(rt: HostRuntime) -> Result<(), Fail> {
    let settled = by_four::<Tickets, _>(&rt, rt.alloc())?;
    assert!(rt; settled.lists.len() == 4 && has_all(rt.alloc(), &settled)?);
    Ok(())
}

#[test]
fn four_threads_by_desks(rt: HostRuntime) -> Result<(), Fail> {
    let settled = by_four::<Desks, _>(&rt, rt.alloc())?;
    assert!(rt; settled.lists.len() == 4 && has_all(rt.alloc(), &settled)?);
    Ok(())
}
