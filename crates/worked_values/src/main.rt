//! Worked values of `grid`, `polygons`, `shade`, `cover` and `tiling`. Each line of standard input is a call, an equals
//! sign and the result that a reader finds by hand from the rules; what follows a `#` is a comment. A line that does
//! not hold, or that is not a call with its result, is printed, and last how many held and how many did not.
#![tactic(auto)]

mod answer;
mod blocks;
mod calls;
mod points;
mod polygon;
mod values;
mod words;

use calls::holds;
use std::io;
use std::io::BufRead;
use words::before_comment;

fn main(rt: HostRuntime) -> io::Result<()> {
    let (mut right, mut wrong) = (0u32, 0u32);
    for line in rt.stdin().lines(rt.alloc()) {
        let line = line?;
        let call = before_comment(line.as_str());
        if call.split_whitespace().next().is_none() {
            continue;
        }
        if holds(call) {
            right = right.wrapping_add(1);
        } else {
            wrong = wrong.wrapping_add(1);
            println!(rt; "does not hold: {line}")?;
        }
    }
    println!(rt; "{right} held, {wrong} did not")
}
