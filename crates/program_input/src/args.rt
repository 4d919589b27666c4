//! The options that the arguments of the command line name.
ghost use Rattle.std.specs.Prelude.{◌≡◌, ◌≤◌, [], map, codes, option_map, IfOk, IfSome, IsSome};
ghost use Rattle.clap.specs.Words.{fault_of};
ghost use Rattle.program_input.specs.Args.{AsksForHelp, trirast_app, matched, tile_text, IsNumberText};

use crate::line_fault::LineFault;
use clap::error::ErrorKind;
use clap::{Arg, Command, Error};
use engine::Options;
use grid::TileSide;
use std::alloc::Global;

impl From<Error> for LineFault {
    ghost use Rattle.clap.specs.Words.{kind_of};
    ghost use Rattle.program_input.specs.Args.{line_fault};

    ghost from_gives = { λ error fault. fault ≡ line_fault (kind_of error) };

    fn from(error: Error) -> LineFault {
        match error.kind() {
            ErrorKind::OutOfMemory => LineFault::OutOfMemory,
            ErrorKind::DisplayHelp => LineFault::Help,
            _ => LineFault::Refused,
        }
    }
}

fn tile_named(text: Option<&str>) -> Option<TileSide>
    ensures { IfSome result (λ tile. option_map (λ t. t.now) text.entry ≡ Some (tile_text tile)) }
{
    match text {
        Some("8") => Some(TileSide::T8),
        Some("16") => Some(TileSide::T16),
        Some("32") => Some(TileSide::T32),
        Some("64") => Some(TileSide::T64),
        _ => None,
    }
}

fn workers_named(text: Option<&str>) -> Option<u32>
    ensures { IfSome result (λ n. (1 ≤ n) × (n ≤ 16)
        × IfSome text.entry (λ t. IsNumberText t.now n) × IsSome text.entry) }
{
    match text?.parse::<u32>() {
        Ok(number) if 1 <= number && number <= 16 => Some(number),
        _ => None,
    }
}

/// The options that the arguments name. The first argument is the program's name.
pub fn options<'a>(alloc: Global, arguments: &'a [&'a str]) -> Result<Options, LineFault>
    // clap gives matches for the arguments, which name the tile size.
    ensures tile { let texts = map (λ word. word.now) arguments.entry.now in
        IfOk result (λ o. (fault_of trirast_app texts ≡ [])
        × (matched (codes "tile") texts ≡ Some (tile_text o.tile))) }
    // They name the number of workers too.
    ensures workers { let texts = map (λ word. word.now) arguments.entry.now in
        IfOk result (λ o. (1 ≤ o.workers) × (o.workers ≤ 16)
        × IfSome (matched (codes "workers") texts) (λ text. IsNumberText text o.workers)
        × IsSome (matched (codes "workers") texts)) }
    // `Help` is returned only if clap asks for it.
    ensures help { let texts = map (λ word. word.now) arguments.entry.now in
        result ≡ Err LineFault.Help → AsksForHelp texts }
{
    let tile = Arg::new(alloc, "tile").long("tile").default_value("32");
    let workers = Arg::new(alloc, "workers")
        .long("workers")
        .default_value("4");
    let command = Command::new(alloc, "trirast").arg(tile)?.arg(workers)?;
    let matches = command.try_get_matches_from(arguments)?;
    let Some(tile) = tile_named(matches.get_str("tile")) else {
        return Err(LineFault::Refused);
    };
    let Some(workers) = workers_named(matches.get_str("workers")) else {
        return Err(LineFault::Refused);
    };
    Ok(Options { tile, workers })
}
