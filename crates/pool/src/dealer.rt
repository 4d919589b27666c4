//! Work distribution: the numbers below a count are given to seats, one for each thread.
ghost use Rattle.std.specs.Prelude.{◌≡◌, ℕ, ◌≤◌, ◌<◌, ◌++◌, [], ◌∷◌, length, Bool, true, false, List, map, All, IfOk, IfSome, IfNone};
ghost use Rattle.std.specs.List.{range_with_len};
ghost use Rattle.pool.specs.Dealing.{lists_of, NoneTwice, DealtOnce, SomeEnded};

use crate::settled::Settled;
use grid::OutOfMemory;
use std::alloc::Global;

/// Distributes work: the numbers below a count, as of tiles, are given to seats, the handles of the workers.
///
/// The threads share the dealer, and each draws with a seat of its own. Whatever the order of their calls, no number is
/// given twice, and once one seat has found none left, each number was given once. `next` allocates nothing and never
/// waits.
pub trait Dealer: Sized + Sync + Drop {
    /// The handle of one worker.
    type Seat: Send + Drop;

    /// How many numbers there are to give.
    ghost count: { Self → ℕ };

    /// How many seats there are.
    ghost seat_count: { Self → ℕ };

    /// The seat is one of this dealer.
    ghost fits: { Self → Self.Seat → Type 0 };

    /// The seat's index.
    ghost number: { Self.Seat → ℕ };

    /// What the seat was given, in its order.
    ghost given: { Self.Seat → List ℕ };

    /// Whether the seat has found no number left.
    ghost ended: { Self.Seat → Bool };

    /// The order in which a seat of this number is given its numbers.
    ghost in_order: { Self → ℕ → List ℕ → Type 0 };

    /// A dealer of the numbers below `n`, and its seats in their order, which were given nothing. All memory of the
    /// later calls is allocated here. Fails only if an allocation fails.
    fn deal(alloc: Global, n: u32, seats: u32) -> Result<(Self, Vec<Self::Seat>), OutOfMemory>
        requires { (n ≤ 262144) × (0 < seats) × (seats ≤ 16) }
        ensures dealer { IfOk result (λ r. (count r.0 ≡ n) × (seat_count r.0 ≡ seats)) }
        ensures seats { IfOk result (λ r. map number r.1.items ≡ range_with_len 0 seats) }
        ensures fresh { IfOk result (λ r. All (λ s. fits r.0 s × (given s ≡ []) × (ended s ≡ false)) r.1.items) };

    /// The next number of the seat. Returns `None` if none is left, and from then on.
    fn next(&self, seat: &mut Self::Seat) -> Option<u32>
        requires { fits self.now seat.old }
        ensures fits { fits self.now seat.new × (number seat.new ≡ number seat.old) }
        ensures some { IfSome result (λ k. (k < count self.now) × (given seat.new ≡ given seat.old ++ k ∷ []) ×
            (ended seat.old ≡ false) × (ended seat.new ≡ false)) }
        ensures none { IfNone result ((given seat.new ≡ given seat.old) × (ended seat.new ≡ true)) }
        ensures short { length (given seat.new) ≤ count self.now }
        ensures order { in_order self.now (number seat.new) (given seat.new) };

    /// Finishes the work: which numbers each seat was given. All seats come back, in their order.
    fn settle(self, seats: Vec<Self::Seat>) -> Settled
        requires seats { map number seats.items ≡ range_with_len 0 (seat_count self) }
        requires fits { All (λ s. fits self s) seats.items }
        ensures lists { lists_of result ≡ map (λ s. (given s, ended s)) seats.items }
        ensures twice { NoneTwice (count self) (lists_of result) }
        ensures once { SomeEnded (lists_of result) → DealtOnce (count self) (lists_of result) };
}
