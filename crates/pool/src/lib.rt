//! Distributes the numbers below n to workers in threads of their own, each number once, and gathers their answers in
//! the order of the numbers.
#![tactic(auto)]

mod answers;
mod counter;
mod dealer;
mod desks;
mod fault;
mod gate;
mod job;
mod known;
mod rule;
mod settled;
mod tickets;
mod worker;
mod workers;

pub use dealer::Dealer;
pub use desks::{DeskSeat, Desks};
pub use fault::PoolFault;
pub use gate::{Gate, Open};
pub use job::Job;
pub use settled::Settled;
pub use tickets::{TicketSeat, Tickets};
pub use workers::{run, run_beside};
