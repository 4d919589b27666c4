//! The ids of all samples of one tile, written to the caller's memory.
ghost use Rattle.std.specs.Prelude.{◌≡◌, ◌↔◌, ◌⊎◌, ℕ, ◌*◌, ◌<◌, ◌≤◌, length, take, slice_index, IsSome, IfSome, IsOk, IsTrue, IfOk, OnErr, IfErr};
ghost use Rattle.lanes.specs.Block.{stored_at};
ghost use Rattle.grid.specs.Samples.{count_of};
ghost use Rattle.blocks.specs.Layout.{planes_of_tile, block_in_tile, pixel_in_block, stored_in_tile, id_of, IsUniformTile};
ghost use Rattle.readout.specs.Tiles.{FitTile, IsTileMisfit, tile_entries as entries_of, entry_in_tile, said_of, AreTileIds, IsIdCount};

use crate::entries::{Entry, write_entries};
use crate::misfit::Misfit;
use crate::place::has_tile;
use crate::view::View;
use blocks::{is_cleared, merged_in_tile, place_in_tile};
use grid::SampleCount;
use lanes::BlockSamples;

/// How many entries a tile has: one for each sample.
pub(crate) fn tile_entries(count: SampleCount) -> usize
    ensures value { result ≡ entries_of count }
    ensures few { result ≤ 65536 }
{
    4096 * count.count() as usize
}

/// Whether all samples of a plane have this id.
fn has_id(plane: &BlockSamples, id: u32) -> bool
    ensures { IsTrue result ↔ ((k : ℕ) → k < 64 → id_of (stored_at plane.now k) ≡ id) }
{
    for k in 0..64 {
        if u32::of(plane, k) != id {
            return false;
        }
    }
    true
}

/// The id of all samples of a tile, if all of its blocks are kept as the one to which it was cleared and there is such
/// an id.
fn cleared_id(count: SampleCount, samples: &[BlockSamples]) -> Option<u32>
    requires { length samples.now ≡ planes_of_tile count }
    ensures some { IsSome result ↔ IsUniformTile count samples.now }
    ensures id { IfSome result (λ id. (i j s : ℕ) → s < count_of count →
        id_of (stored_in_tile count samples.now i j s) ≡ id) }
{
    if !is_cleared(samples) {
        return None;
    }
    let id = u32::of(&samples[1], 0);
    if has_id(&samples[1], id) {
        Some(id)
    } else {
        None
    }
}

/// Writes the ids of the samples `s` of block `k` of a tile.
#[inline]
fn write_block_ids(count: SampleCount, samples: &[BlockSamples], k: u32, s: u32, ids: &mut [u32])
    requires block { k < 64 }
    requires sample { s < count_of count }
    requires samples { length samples.now ≡ planes_of_tile count }
    requires ids { length ids.old ≡ 64 }
    ensures { (i j : ℕ) → block_in_tile i j ≡ k → slice_index ids.new (pixel_in_block i j) ≡
        id_of (stored_in_tile count samples.now i j s) }
{
    match merged_in_tile(samples, count, k as usize, s) {
        Some(plane) => write_entries(&plane, 0, 64, ids),
        None => {
            let place = place_in_tile(samples, count, 8 * (k % 8), 8 * (k / 8), s);
            write_entries(&samples[place], 0, 64, ids);
        }
    }
}

/// Writes the ids of all samples of a tile, plane by plane.
fn write_ids(count: SampleCount, samples: &[BlockSamples], ids: &mut [u32])
    requires samples { length samples.now ≡ planes_of_tile count }
    requires ids { length ids.old ≡ entries_of count }
    ensures { (i j s : ℕ) → s < count_of count → slice_index ids.new (entry_in_tile count i j s) ≡
        id_of (stored_in_tile count samples.now i j s) }
{
    let many = count.count();
    for number in 0..64 * many {
        let from = 64 * number as usize;
        write_block_ids(
            count,
            samples,
            number / many,
            number % many,
            &mut ids[from..from + 64],
        );
    }
}

/// Writes the ids of the samples of a tile, or one that all of them have. Returns how many were written.
fn ids_of_tile(count: SampleCount, samples: &[BlockSamples], ids: &mut [u32]) -> usize
    requires samples { length samples.now ≡ planes_of_tile count }
    requires ids { entries_of count ≤ length ids.old }
    ensures many { ((result ≡ 1) × IsUniformTile count samples.now) ⊎
        ((result ≡ entries_of count) × ¬ IsUniformTile count samples.now) }
    ensures ids { (i j s : ℕ) → s < count_of count → said_of count (take result ids.new) i j s ≡
        id_of (stored_in_tile count samples.now i j s) }
    ensures others { (n : ℕ) → result ≤ n → slice_index ids.new n ≡ slice_index ids.old n }
{
    match cleared_id(count, samples) {
        Some(id) => {
            ids[0] = id;
            1
        }
        None => {
            let entries = tile_entries(count);
            write_ids(count, samples, &mut ids[..entries]);
            entries
        }
    }
}

impl View<'_> {
    /// Writes the ids that are stored in place of the colours of all samples of a tile, those of pixels beside the
    /// picture too, and returns how many. That is one for each sample: of each of the tile's 64 blocks, row by row,
    /// sample index by sample index, those of its 8 by 8 pixels, row by row. It is one, the id of all samples, exactly if
    /// all blocks of the tile are kept as the one to which it was cleared and all samples have one id: so it is after
    /// `Piece::clear`. Entries behind those are unchanged.
    pub fn tile_ids(&self, column: u32, row: u32, ids: &mut [u32]) -> Result<usize, Misfit>
        ensures fits { IsOk result ↔ FitTile self.now.rows.canvas self.now.rows.first self.now.rows.end column row
            (length ids.old) }
        ensures many { IfOk result (IsIdCount self.now.rows.canvas self.now.rows.first column row self.now.planes.now) }
        ensures ids { IfOk result (λ many. AreTileIds self.now.rows.canvas self.now.rows.first self.now.rows.end column
            row self.now.planes.now (take many ids.new)) }
        ensures others { IfOk result (λ many. (n : ℕ) → many ≤ n → slice_index ids.new n ≡ slice_index ids.old n) }
        ensures unfit { OnErr result (ids.new ≡ ids.old) }
        ensures reason { IfErr result (IsTileMisfit self.now.rows.canvas self.now.rows.first self.now.rows.end column
            row (entries_of self.now.rows.canvas.count ≤ length ids.old)) }
    {
        let canvas = &self.rows.canvas;
        if !has_tile(&self.rows, column, row) {
            return Err(Misfit::Tile);
        }
        if ids.len() < tile_entries(canvas.count) {
            return Err(Misfit::Pixels);
        }
        let (each, of_row) = (canvas.planes_of_tile(), canvas.planes_of_row());
        let from = (row - self.rows.first) as usize * of_row;
        let planes = &self.planes[from..from + of_row];
        let at = column as usize * each;
        Ok(ids_of_tile(canvas.count, &planes[at..at + each], ids))
    }
}
