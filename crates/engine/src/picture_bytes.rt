//! The bytes of a picture, drawn on the calling thread alone: no thread is started, and none is waited for.
ghost use Rattle.std.specs.Prelude.{◌≡◌, ◌≤◌, ℕ, List, length, IfOk, OnOk};
ghost use Rattle.tiling.specs.Grid.{tiles_over};
ghost use Rattle.tiling.specs.TileRow.{AreTileRows, AddsTileRows};
ghost use Rattle.picture_file.specs.File.{IsPictureFile};
ghost use Rattle.engine.specs.Picture.{rows_length};

use bins::Bins;
use draw_list::DrawList;
use grid::{OutOfMemory, TileSide};
use picture_file::{HEADER_BYTES, file_header};
use pool::Open;
use std::alloc::Global;
use tile::Store;
use tile_rows::TileRows;
use tiling::Tiling;

/// The number of bytes of the rows of pixels in these tile rows, from `first` to before `end`.
pub fn bytes_of_rows(list: &DrawList, tile: TileSide, first: u32, end: u32) -> u64
    requires order { first ≤ end }
    requires within { end ≤ tiles_over list.now.height tile }
    ensures length { result ≡ rows_length list.now tile first end }
    ensures rows { (rows : List ℕ) → AreTileRows list.now tile first end rows → result ≡ length rows }
    ensures most { result ≤ 50331648 }
{
    let height = list.height();
    let top = tile.pixels() * first;
    let bottom = height.min(tile.pixels() * end);
    u64::from(list.output().pixel_bytes()) * u64::from(bottom.saturating_sub(top) * list.width())
}

/// Draws these tile rows, from `first` to before `end`, one by one, and appends the bytes of their rows of pixels.
fn push_tile_rows(
    alloc: Global,
    list: &DrawList,
    tile: TileSide,
    first: u32,
    end: u32,
    bytes: &mut Vec<u8>,
) -> Result<(), OutOfMemory>
    requires order { first ≤ end }
    requires within { end ≤ tiles_over list.now.height tile }
    ensures { OnOk result (AddsTileRows list.now tile first end bytes.old.items bytes.new.items) }
{
    let tiling = Tiling::new(list.width(), list.height(), tile);
    let mut store = Store::new(alloc, tile, list.count())?;
    let mut bins = Bins::none(alloc);
    for row in first..end {
        let rows = TileRows::new(list, &tiling, row, end);
        rows.push_first(alloc, &mut store, &mut bins, &Open, bytes)?;
    }
    Ok(())
}

/// The bytes of the rows of pixels in these tile rows, from `first` to before `end`, drawn on the calling thread. Each
/// row has its pixels from left to right: red, green and blue of each or, if the list's output is its depths, the more
/// and the less significant byte of the depth. Nothing else of the picture is drawn. Fails only if an allocation fails.
pub fn draw_rows(
    alloc: Global,
    list: &DrawList,
    tile: TileSide,
    first: u32,
    end: u32,
) -> Result<Vec<u8>, OutOfMemory>
    requires order { first ≤ end }
    requires within { end ≤ tiles_over list.now.height tile }
    ensures { IfOk result (λ bytes. AreTileRows list.now tile first end bytes.items) }
{
    let mut bytes = Vec::with_capacity(alloc, bytes_of_rows(list, tile, first, end) as usize)?;
    push_tile_rows(alloc, list, tile, first, end, &mut bytes)?;
    Ok(bytes)
}

/// The file of a list's picture, drawn on the calling thread. The whole file stands in memory, once. Fails only if an
/// allocation fails.
pub fn draw(alloc: Global, list: &DrawList, tile: TileSide) -> Result<Vec<u8>, OutOfMemory>
    ensures { IfOk result (λ file. IsPictureFile list.now file.items) }
{
    let rows = Tiling::new(list.width(), list.height(), tile).rows();
    let length = HEADER_BYTES + bytes_of_rows(list, tile, 0, rows) as usize;
    let mut file = Vec::with_capacity(alloc, length)?;
    file.extend_from_slice(file_header(list).as_slice())?;
    push_tile_rows(alloc, list, tile, 0, rows, &mut file)?;
    Ok(file)
}
