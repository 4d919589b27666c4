//! Reading by itself: a draw list from standard input is read in one pass, as the program reads it, and by `serde_json`
//! into its tree of values alone. By default it prints how many triangles the list draws, or the fault that is returned
//! in its place, and whether the tree is an object. With `--time` both are read again and again in turn, and it prints
//! the least time of each and their ratio. With `--read` the list is read ten times and nothing is printed, for tools
//! that count time or instructions. With `--compare` the input is many texts, and the readers are compared on each.
#![tactic(auto)]

ghost use Rattle.std.specs.Prelude.{◌≤◌, IfOk, length, vec_len};

mod compare;

use compare::compare_all;
use list::{MOST_BYTES, ReadFault, read};
use serde_json::Value;
use std::alloc::Global;
use std::io::{ErrorKind, Read};
use std::time::{Clock, Instant};
use std::{env, io};

/// How often each is read with `--time`.
const ROUNDS: u32 = 7;

/// How often the list is read with `--read`.
const READINGS: u32 = 10;

/// The bytes on standard input.
fn input(rt: &HostRuntime) -> io::Result<Vec<u8>>
    ensures { IfOk result (λ bytes. vec_len bytes ≤ MOST_BYTES) }
{
    let mut bytes = Vec::new(rt.alloc());
    rt.stdin().read_to_end(&mut bytes)?;
    if bytes.len() > MOST_BYTES {
        return Err(io::Error::from(ErrorKind::InvalidInput));
    }
    Ok(bytes)
}

/// The number of triangles that the list draws, or its fault.
fn triangles(alloc: Global, bytes: &[u8]) -> Result<usize, ReadFault>
    requires { length bytes.now ≤ MOST_BYTES }
{
    let list = read(alloc, bytes)?;
    Ok(list.triangles())
}

/// Prints a fault of a list, with its draw if it has one.
fn print_fault(rt: &impl Print, fault: ReadFault) -> io::Result<()> {
    let (number, name) = (fault.kind.number(), fault.kind.name());
    match fault.draw {
        Some(draw) => println!(rt; "no list: fault {number} {name} in draw {draw}"),
        None => println!(rt; "no list: fault {number} {name}"),
    }
}

/// Whether `serde_json` reads an object.
fn is_object(alloc: Global, bytes: &[u8]) -> bool {
    match Value::from_slice(alloc, bytes) {
        Ok(value) => value.is_object(),
        Err(_) => false,
    }
}

/// The lesser of a time and the time since a start, in nanoseconds.
fn least_since<R: Clock>(rt: &R, start: Instant, least: u64) -> io::Result<u64> {
    let nanos = u64::try_from(start.elapsed(rt)?.as_nanos()).unwrap_or(u64::MAX);
    Ok(least.min(nanos))
}

/// The least time of reading in one pass and by `serde_json` alone, in nanoseconds, the two in turn.
fn least_times<R: Clock>(rt: &R, alloc: Global, bytes: &[u8]) -> io::Result<(u64, u64)>
    requires { length bytes.now ≤ MOST_BYTES }
{
    let (mut ours, mut value) = (u64::MAX, u64::MAX);
    for _ in 0..ROUNDS {
        let start = Instant::now(rt)?;
        let _triangles = triangles(alloc, bytes);
        ours = least_since(rt, start, ours)?;
        let start = Instant::now(rt)?;
        let _object = is_object(alloc, bytes);
        value = least_since(rt, start, value)?;
    }
    Ok((ours, value))
}

/// Hundredths of a ratio, or 0 if there is none.
fn hundredths(part: u64, whole: u64) -> u64 {
    if whole == 0 {
        0
    } else {
        part.saturating_mul(100) / whole
    }
}

/// Prints how many triangles the list draws, or its fault, and whether the tree of values is an object.
fn print_report(rt: &impl Print, alloc: Global, bytes: &[u8]) -> io::Result<()>
    requires { length bytes.now ≤ MOST_BYTES }
{
    match triangles(alloc, bytes) {
        Ok(number) => println!(rt; "a list of {number} triangles")?,
        Err(fault) => print_fault(rt, fault)?,
    }
    let kind = if is_object(alloc, bytes) {
        "an object"
    } else {
        "no object"
    };
    println!(rt; "serde_json: {kind}")
}

fn main(rt: HostRuntime) -> io::Result<()> {
    let (mut timed, mut alone, mut compared) = (false, false, false);
    for word in env::args(&rt)? {
        timed |= word.as_str() == "--time";
        alone |= word.as_str() == "--read";
        compared |= word.as_str() == "--compare";
    }
    let bytes = input(&rt)?;
    if compared {
        return compare_all(&rt, rt.alloc(), &bytes);
    }
    if alone {
        for _ in 0..READINGS {
            let _triangles = triangles(rt.alloc(), &bytes);
        }
        return Ok(());
    }
    print_report(&rt, rt.alloc(), &bytes)?;
    if timed {
        let (ours, value) = least_times(&rt, rt.alloc(), &bytes)?;
        let ratio = hundredths(ours, value);
        println!(rt; "list::read {ours} ns, serde_json's value {value} ns, {ratio} hundredths")?;
    }
    Ok(())
}
