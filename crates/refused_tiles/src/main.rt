//! A store that is used again after an allocation has failed. The tiles of a draw list from standard input are drawn
//! one after another in one store, and each is compared with the reference program's picture. If an allocation fails
//! for a tile, the next one is drawn all the same. It prints how many tiles were right, wrong and refused.
//! `tests/program/allocation_failures.py` makes each allocation fail in turn.
#![tactic(auto)]

ghost use Rattle.std.specs.Prelude.{◌≤◌, length};

use bins::{Bins, Tiling};
use grid::{OutOfMemory, TileSide};
use list::{DrawList, MOST_BYTES, read};
use std::alloc::Global;
use std::io;
use std::io::{ErrorKind, Read};
use tile::{Store, TilePixels, render};

/// What became of the tiles.
#[derive(Drop)]
struct Tally {
    right: u32,
    wrong: u32,
    refused: u32,
}

/// Whether the tile's bytes are those of the picture in the tile's rectangle.
fn is_part(tile: &TilePixels, list: &DrawList, picture: &[u8]) -> bool {
    let pixel_bytes = list.output().pixel_bytes() as usize;
    let row_bytes = pixel_bytes.wrapping_mul(list.width() as usize);
    let left = pixel_bytes.wrapping_mul(tile.rect.x0.unsigned_abs() as usize);
    let right = pixel_bytes.wrapping_mul(tile.rect.x1.unsigned_abs() as usize);
    let mut bytes = tile.bytes.iter();
    for y in tile.rect.y0..tile.rect.y1 {
        let row = row_bytes.wrapping_mul(y.unsigned_abs() as usize);
        for place in left..right {
            let expected = picture.get(row.wrapping_add(place));
            if expected.is_none() || bytes.next() != expected {
                return false;
            }
        }
    }
    bytes.next().is_none()
}

/// Draws the tiles in one store.
fn drawn_tiles(alloc: Global, list: &DrawList, picture: &[u8]) -> Result<Tally, OutOfMemory> {
    let tiling = Tiling::new(list.width(), list.height(), TileSide::T8);
    let bins = Bins::build(alloc, list, &tiling, 0, tiling.rows())?;
    let mut store = Store::new(alloc, TileSide::T8, list.count())?;
    let mut tally = Tally {
        right: 0,
        wrong: 0,
        refused: 0,
    };
    for k in 0..tiling.tiles() {
        match render(alloc, list, &tiling, &bins, k, &mut store) {
            Ok(tile) if is_part(&tile, list, picture) => tally.right = tally.right.wrapping_add(1),
            Ok(_) => tally.wrong = tally.wrong.wrapping_add(1),
            Err(_) => tally.refused = tally.refused.wrapping_add(1),
        }
    }
    Ok(tally)
}

/// Returns the tiles of the list that the bytes denote, or `None` if they denote none or an allocation fails elsewhere.
fn tiles_of(alloc: Global, bytes: &[u8]) -> Option<Tally>
    requires { length bytes.now ≤ MOST_BYTES }
{
    let list = read(alloc, bytes).ok()?;
    let picture = reference::render(alloc, &list).ok()?;
    drawn_tiles(alloc, &list, &picture).ok()
}

fn main(rt: HostRuntime) -> io::Result<()> {
    let mut bytes = Vec::new(rt.alloc());
    rt.stdin().read_to_end(&mut bytes)?;
    if bytes.len() > MOST_BYTES {
        return Err(io::Error::from(ErrorKind::InvalidInput));
    }
    let Some(tally) = tiles_of(rt.alloc(), &bytes) else {
        return Err(io::Error::from(ErrorKind::Other));
    };
    println!(rt;
        "{} tiles right, {} wrong, {} refused",
        tally.right, tally.wrong, tally.refused
    )
}
