//! Draws frames without reading: a draw list is read once from standard input and drawn several times into a writer
//! that keeps nothing. By default it prints a checksum of the picture's file. With `--time` it also prints the least
//! and the median time of a frame.
//!
//! Arguments: `[--frames NUMBER] [--time] [--tile SIDE] [--workers NUMBER]`; the last two are those of the program.
#![tactic(auto)]

ghost use Rattle.std.specs.Prelude.{◌≤◌};

use list::{DrawList, MOST_BYTES, read};
use pool::Open;
use std::alloc::Global;
use std::io::{ErrorKind, Read, Write};
use std::sync::Wait;
use std::thread::Threads;
use std::time::{Clock, Instant};
use std::{env, io};
use trirast::{Counted, Fault, Options, options, write_picture};

/// A checksum of bytes (FNV-1a, 64 bits).
#[derive(Drop)]
struct Checksum(u64);

impl Write for Checksum {
    fn write(&mut self, bytes: &[u8]) -> io::Result<usize> {
        for byte in bytes {
            self.0 = (self.0 ^ u64::from(*byte)).wrapping_mul(0x100000001b3);
        }
        Ok(bytes.len())
    }

    fn flush(&mut self) -> io::Result<()> {
        Ok(())
    }
}

/// What the arguments ask for.
#[derive(Drop)]
struct Asked {
    frames: usize,
    timed: bool,
    options: Options,
    ghost workers: { (1 ≤ options.workers) × (options.workers ≤ 16) },
}

/// The arguments that this program was called with, its own name first.
fn own_words(rt: &HostRuntime) -> io::Result<Vec<String>> {
    let mut words = Vec::new(rt.alloc());
    for word in env::args(rt)? {
        words.push(word)?;
    }
    Ok(words)
}

/// What the arguments ask for. The arguments of the program itself are read by the program's own reader of arguments.
fn read_words(alloc: Global, words: &[String]) -> io::Result<Asked> {
    let mut own = Vec::new(alloc);
    let (mut frames, mut timed, mut number_follows) = (1, false, false);
    for word in words {
        if number_follows {
            frames = word.parse::<usize>().unwrap_or(1).max(1);
            number_follows = false;
        } else if word.as_str() == "--frames" {
            number_follows = true;
        } else if word.as_str() == "--time" {
            timed = true;
        } else {
            own.push(word.as_str())?;
        }
    }
    match options(alloc, &own) {
        Ok(options) => Ok(Asked {
            frames,
            timed,
            options,
        }),
        Err(_) => Err(io::Error::from(ErrorKind::InvalidInput)),
    }
}

/// The draw list on standard input.
fn list_of_input(rt: &HostRuntime) -> io::Result<DrawList> {
    let mut bytes = Vec::new(rt.alloc());
    rt.stdin().read_to_end(&mut bytes)?;
    if bytes.len() > MOST_BYTES {
        return Err(io::Error::from(ErrorKind::InvalidInput));
    }
    match read(rt.alloc(), &bytes) {
        Ok(list) => Ok(list),
        Err(_) => Err(io::Error::from(ErrorKind::InvalidData)),
    }
}

/// One frame: the picture's file into a writer.
fn draw_frame<R: Threads + Wait + Sync, W: Write + Drop>(
    rt: &R,
    alloc: Global,
    list: &DrawList,
    options: Options,
    output: W,
) -> io::Result<W>
    requires { (1 ≤ options.workers) × (options.workers ≤ 16) }
{
    let mut output = Counted::new(output);
    match write_picture(rt, alloc, list, options, &Open, &mut output) {
        Ok(()) => Ok(output.into_inner()),
        Err(_) => Err(io::Error::from(ErrorKind::Other)),
    }
}

/// The times of the frames in nanoseconds, in ascending order.
fn times<R: Threads + Wait + Sync + Clock>(
    rt: &R,
    alloc: Global,
    list: &DrawList,
    asked: &Asked,
) -> io::Result<Vec<u64>> {
    let mut times = Vec::new(alloc);
    for _ in 0..asked.frames {
        let start = Instant::now(rt)?;
        draw_frame(rt, alloc, list, asked.options, io::sink())?;
        times.push(u64::try_from(start.elapsed(rt)?.as_nanos()).unwrap_or(u64::MAX))?;
    }
    times.sort()?;
    Ok(times)
}

fn main(rt: HostRuntime) -> io::Result<()> {
    let words = own_words(&rt)?;
    let asked = read_words(rt.alloc(), &words)?;
    let list = list_of_input(&rt)?;
    let sum = draw_frame(
        &rt,
        rt.alloc(),
        &list,
        asked.options,
        Checksum(0xcbf29ce484222325),
    )?;
    println!(rt; "{} triangles, checksum {:016x}", list.triangles(), sum.0)?;
    if asked.timed {
        let times = times(&rt, rt.alloc(), &list, &asked)?;
        let middle = times.get(times.len() / 2);
        if let (Some(least), Some(middle)) = (times.first(), middle) {
            let frames = times.len();
            println!(rt; "least {least} ns, middle {middle} ns of {frames} frames")?;
        }
    }
    Ok(())
}
