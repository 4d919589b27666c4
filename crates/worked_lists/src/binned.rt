//! Which triangles of a list the bins of its tiles have.
use bins::{Bins, Tiling};
use cover::{Class, Setup};
use grid::{OutOfMemory, SampleCount, TileSide};
use list::{DrawList, Placed};
use std::alloc::{AllocError, Global};

/// The bins of a picture's tiles, in order.
pub(crate) fn bins_of(
    alloc: Global,
    list: &DrawList,
    tiling: &Tiling,
) -> Result<String, AllocError> {
    let mut all = String::new(alloc);
    let Ok(bins) = Bins::build(alloc, list, tiling, 0, tiling.rows()) else {
        return Ok(all);
    };
    for k in 0..tiling.tiles() {
        let bin = bins.bin(k);
        all.push_str(format!(in alloc; "{bin:?}")?.as_str())?;
    }
    Ok(all)
}

/// Whether the triangle is drawn, its box cut to its scissor has pixels of tile `k`, and it is not seen to miss the
/// tile.
fn belongs(triangle: &Placed, count: SampleCount, tiling: &Tiling, k: u32) -> bool {
    let Some(setup) = Setup::new(&triangle.tri, triangle.state.cull) else {
        return false;
    };
    let (column, row) = (k % tiling.columns(), k / tiling.columns());
    if row >= tiling.rows() {
        return false;
    }
    let (bx, by) = tiling.block_of(column, row);
    let class = setup.classify(bx, by, tiling.side(), count);
    let side = tiling.side().pixels() as i32;
    let (left, top) = (8 * bx as i32, 8 * by as i32);
    let (bounds, scissor) = (setup.bounds(), triangle.state.scissor);
    class != Class::Out
        && left.max(bounds.x0).max(scissor.x0) < (left + side).min(bounds.x1).min(scissor.x1)
        && top.max(bounds.y0).max(scissor.y0) < (top + side).min(bounds.y1).min(scissor.y1)
}

/// Whether a bin has exactly the triangles that belong to its tile.
fn is_exact(list: &DrawList, tiling: &Tiling, k: u32, bin: &[u32]) -> bool {
    let mut numbers = bin.iter();
    for number in 0..list.triangles() {
        if belongs(&list.triangle(number), list.count(), tiling, k)
            && numbers.next() != Some(&(number as u32))
        {
            return false;
        }
    }
    numbers.next().is_none()
}

/// Whether the bins of all tiles have exactly the triangles that belong to them.
pub(crate) fn are_exact(
    alloc: Global,
    list: &DrawList,
    tiling: &Tiling,
) -> Result<bool, OutOfMemory> {
    let bins = Bins::build(alloc, list, tiling, 0, tiling.rows())?;
    for k in 0..tiling.tiles() {
        if !is_exact(list, tiling, k, bins.bin(k)) {
            return Ok(false);
        }
    }
    Ok(true)
}

/// Whether the bins of each row of tiles by itself are those of all rows, for 100 by 70 pixels and tiles of 16.
pub(crate) fn agree_by_rows(alloc: Global, list: &DrawList) -> Result<bool, OutOfMemory> {
    let tiling = Tiling::new(100, 70, TileSide::T16);
    let all = Bins::build(alloc, list, &tiling, 0, 5)?;
    for row in 0..5 {
        let bins = Bins::build(alloc, list, &tiling, row, 1)?;
        for column in 0..7 {
            let k = 7 * row + column;
            if bins.bin(k) != all.bin(k) {
                return Ok(false);
            }
        }
    }
    Ok(true)
}
