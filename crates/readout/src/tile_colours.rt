//! Colours in the caller's memory, stored as those of all samples of one tile.
ghost use Rattle.std.specs.Prelude.{◌≡◌, ◌↔◌, ◌⊎◌, ℕ, ◌+◌, ◌*◌, ◌/◌, ◌%◌, ◌<◌, ◌≤◌, length, slice_index, slice_index_or, [], IsOk, OnOk, OnErr, IfErr};
ghost use Rattle.lanes.specs.Block.{stored_at};
ghost use Rattle.grid.specs.Samples.{count_of};
ghost use Rattle.blocks.specs.Layout.{planes_of_tile, place_in_tile as place_of, in_list, stored_in_tile, IsUniformTile};
ghost use Rattle.canvas.specs.Layout.{columns_of, planes_of_row, planes_of_rows};
ghost use Rattle.canvas.specs.Tiles.{IsUniform};
ghost use Rattle.readout.specs.Tiles.{FitTileOrOne, IsTileMisfit, tile_entries as entries_of, entry_in_tile, said_of, with_colour, AreTileColours};

use crate::loaded::set_colour;
use crate::misfit::Misfit;
use crate::place::has_tile;
use crate::tile_ids::tile_entries;
use blocks::{fill_tile, is_cleared};
use canvas::{Canvas, Piece, TileRows};
use grid::SampleCount;
use lanes::BlockSamples;

/// Red, green and blue of the colour of this number, red its lowest byte.
#[inline]
fn channels(colour: u32) -> (u8, u8, u8)
    ensures { (result.0 ≡ colour % 256) × (result.1 ≡ colour / 256 % 256) × (result.2 ≡ colour / 65536 % 256) }
{
    (
        (colour % 256) as u8,
        (colour / 256 % 256) as u8,
        (colour / 65536 % 256) as u8,
    )
}

/// Stores colours in place of those of a plane, pixel by pixel.
fn store_plane(plane: &mut BlockSamples, colours: &[u32])
    requires { length colours.now ≡ 64 }
    ensures { (k : ℕ) → k < 64 → stored_at plane.new k ≡
        with_colour (slice_index colours.now k) (stored_at plane.old k) }
{
    for k in 0..64 {
        let (r, g, b) = channels(colours[k]);
        set_colour(plane, k, r, g, b);
    }
}

/// Stores one colour in place of those of a plane.
fn fill_plane(plane: &mut BlockSamples, colour: u32)
    ensures { (k : ℕ) → k < 64 → stored_at plane.new k ≡ with_colour colour (stored_at plane.old k) }
{
    let (r, g, b) = channels(colour);
    *plane = BlockSamples {
        z: plane.z,
        r: [r; 64],
        g: [g; 64],
        b: [b; 64],
        alpha: plane.alpha,
    };
}

/// The end of the planes in which the samples of a tile lie.
fn end_of_planes(count: SampleCount, samples: &[BlockSamples]) -> usize
    ensures read { (i j s : ℕ) → s < count_of count → place_of count (in_list samples.now) i j s < result }
    ensures within { result ≤ planes_of_tile count }
    ensures some { 1 ≤ result }
{
    if is_cleared(samples) {
        2
    } else {
        1 + 65 * count.count() as usize
    }
}

/// Stores colours in place of those of all samples of a tile, plane by plane.
fn store_each(count: SampleCount, colours: &[u32], samples: &mut [BlockSamples])
    requires colours { length colours.now ≡ entries_of count }
    requires samples { length samples.old ≡ planes_of_tile count }
    ensures { (i j s : ℕ) → s < count_of count → stored_in_tile count samples.new i j s ≡
        with_colour (slice_index colours.now (entry_in_tile count i j s)) (stored_in_tile count samples.old i j s) }
{
    fill_tile(count, samples);
    let many = count.count() as usize;
    let own = 1 + many;
    for number in 0..64 * many {
        let from = 64 * number;
        store_plane(&mut samples[own + number], &colours[from..from + 64]);
    }
}

/// Stores one colour in place of those of all samples of a tile.
fn store_one(count: SampleCount, colour: u32, samples: &mut [BlockSamples])
    requires { length samples.old ≡ planes_of_tile count }
    ensures stored { (i j s : ℕ) → s < count_of count → stored_in_tile count samples.new i j s ≡
        with_colour colour (stored_in_tile count samples.old i j s) }
    ensures first { slice_index_or samples.new 0 (record { z = []; r = []; g = []; b = []; alpha = [] }) ≡
        slice_index_or samples.old 0 (record { z = []; r = []; g = []; b = []; alpha = [] }) }
{
    for place in 1..end_of_planes(count, samples) {
        fill_plane(&mut samples[place], colour);
    }
}

/// Stores colours in place of those of all samples of a tile, or one in place of all of them.
fn store_colours(count: SampleCount, colours: &[u32], samples: &mut [BlockSamples])
    requires colours { (length colours.now ≡ 1) ⊎ (length colours.now ≡ entries_of count) }
    requires samples { length samples.old ≡ planes_of_tile count }
    ensures stored { (i j s : ℕ) → s < count_of count → stored_in_tile count samples.new i j s ≡
        with_colour (said_of count colours.now i j s) (stored_in_tile count samples.old i j s) }
    ensures uniform { length colours.now ≡ 1 → IsUniformTile count samples.old → IsUniformTile count samples.new }
{
    if colours.len() == 1 {
        store_one(count, colours[0], samples);
    } else {
        store_each(count, colours, samples);
    }
}

/// Stores colours in place of those of all samples of the tile in a column of tiles, in the planes of its tile row.
fn store_tile(canvas: &Canvas, row: u32, column: u32, colours: &[u32], samples: &mut [BlockSamples])
    requires column { column < columns_of canvas.now }
    requires colours { (length colours.now ≡ 1) ⊎ (length colours.now ≡ entries_of canvas.now.count) }
    requires samples { length samples.old ≡ planes_of_row canvas.now }
    ensures stored { AreTileColours canvas.now row (row + 1) column row colours.now samples.old samples.new }
    ensures uniform { length colours.now ≡ 1 → IsUniform canvas.now row column row samples.old →
        IsUniform canvas.now row column row samples.new }
{
    let each = canvas.planes_of_tile();
    let at = column as usize * each;
    store_colours(canvas.count, colours, &mut samples[at..at + each]);
}

/// Stores colours in place of those of all samples of a tile, as `tile_store` does.
fn store_in_tile(
    tile_rows: &TileRows,
    column: u32,
    row: u32,
    colours: &[u32],
    samples: &mut [BlockSamples],
) -> Result<(), Misfit>
    requires { length samples.old ≡ planes_of_rows tile_rows.now.canvas tile_rows.now.first tile_rows.now.end }
    ensures fits { IsOk result ↔ FitTileOrOne tile_rows.now.canvas tile_rows.now.first tile_rows.now.end column row
        (length colours.now) }
    ensures stored { OnOk result (AreTileColours tile_rows.now.canvas tile_rows.now.first tile_rows.now.end column row colours.now
        samples.old samples.new) }
    ensures uniform { OnOk result (length colours.now ≡ 1 →
        IsUniform tile_rows.now.canvas tile_rows.now.first column row samples.old →
        IsUniform tile_rows.now.canvas tile_rows.now.first column row samples.new) }
    ensures unfit { OnErr result (samples.new ≡ samples.old) }
    ensures reason { IfErr result (IsTileMisfit tile_rows.now.canvas tile_rows.now.first tile_rows.now.end column row
        ((length colours.now ≡ 1) ⊎ (length colours.now ≡ entries_of tile_rows.now.canvas.count))) }
{
    if !has_tile(tile_rows, column, row) {
        return Err(Misfit::Tile);
    }
    if colours.len() != 1 && colours.len() != tile_entries(tile_rows.canvas.count) {
        return Err(Misfit::Pixels);
    }
    let each = tile_rows.canvas.planes_of_row();
    let from = (row - tile_rows.first) as usize * each;
    store_tile(
        &tile_rows.canvas,
        row,
        column,
        colours,
        &mut samples[from..from + each],
    );
    Ok(())
}

/// Stores colours in place of those of all samples of a tile, those of pixels beside the picture too: red + 256 *
/// green + 65536 * blue each, laid out as `View::tile_ids` writes ids; what is above the third byte is not read.
/// One colour alone is that of all samples, and a tile of which `View::tile_ids` writes one id stays such a tile.
/// Depths and other tiles are unchanged.
pub fn tile_store(
    piece: &mut Piece<'_>,
    column: u32,
    row: u32,
    colours: &[u32],
) -> Result<(), Misfit>
    ensures fits { IsOk result ↔ FitTileOrOne piece.old.rows.canvas piece.old.rows.first piece.old.rows.end column row
        (length colours.now) }
    ensures stored { OnOk result (AreTileColours piece.old.rows.canvas piece.old.rows.first piece.old.rows.end column
        row colours.now piece.old.planes.now piece.new.planes.now) }
    ensures uniform { OnOk result (length colours.now ≡ 1 →
        IsUniform piece.old.rows.canvas piece.old.rows.first column row piece.old.planes.now →
        IsUniform piece.old.rows.canvas piece.old.rows.first column row piece.new.planes.now) }
    ensures unfit { OnErr result (piece.new.planes.now ≡ piece.old.planes.now) }
    ensures reason { IfErr result (IsTileMisfit piece.old.rows.canvas piece.old.rows.first piece.old.rows.end column
        row ((length colours.now ≡ 1) ⊎ (length colours.now ≡ entries_of piece.old.rows.canvas.count))) }
    ensures rows { piece.new.rows ≡ piece.old.rows }
    ensures same { piece.new.planes.ghost_name ≡ piece.old.planes.ghost_name }
{
    store_in_tile(&piece.rows, column, row, colours, piece.planes)
}
