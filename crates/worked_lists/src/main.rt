//! Worked values of `list` and of `bins` over lists. Each line of standard input that does not begin with `#` is a call
//! with a draw list in JSON, and behind an equals sign what the list then has; or a draw list that both readers, one or
//! none of them read. A line that does not hold, or that is not a call with its result, is printed, and last how many
//! held and how many did not.
#![tactic(auto)]

mod binned;
mod calls;
mod lists;
mod made;
mod readers;

use calls::holds;
use std::io;
use std::io::BufRead;

fn main(rt: HostRuntime) -> io::Result<()> {
    let (mut right, mut wrong) = (0u32, 0u32);
    for line in rt.stdin().lines(rt.alloc()) {
        let line = line?;
        if line.is_empty() || line.starts_with("#") {
            continue;
        }
        if holds(rt.alloc(), line.as_str())? {
            right = right.wrapping_add(1);
        } else {
            wrong = wrong.wrapping_add(1);
            println!(rt; "does not hold: {line}")?;
        }
    }
    println!(rt; "{right} held, {wrong} did not")
}
