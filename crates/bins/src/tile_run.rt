//! Runs of tiles that triangles can meet.
ghost use Rattle.std.specs.Prelude.{◌≡◌, ◌+◌, ◌≤◌, ◌^◌, length, slice_get, Some, IfOk, OnOk};
ghost use Rattle.tiling.specs.Grid.{rows_of, IsWithinLimits};

use crate::fetched::Fetched;
use cover::Setup;
use draw_list::{DrawList, Placed};
use reach::{columns_met, tiles_met};
use std::alloc::{AllocError, Global};
use tiling::Tiling;

/// Consecutive tiles of a row which a triangle can meet, from `first` to before `end`. They are counted from the first
/// tile of the rows that are asked for.
#[derive(Clone, Copy, Debug, PartialEq, Eq)]
pub(crate) struct TileRun {
    /// The triangle's number in draw order.
    pub(crate) number: u32,
    pub(crate) first: u32,
    pub(crate) end: u32,
}

impl TileRun {
    ghost use Rattle.bins.specs.TileRuns.{AreCandidates, AreTileRuns};

    /// The runs of the triangles of these numbers, which are the candidates, in `rows` tile rows from `first_row` on.
    pub(crate) fn of_candidates(
        alloc: Global,
        list: &DrawList,
        numbers: &[u32],
        tiling: &Tiling,
        first_row: u32,
        rows: u32,
    ) -> Result<Vec<TileRun>, AllocError>
        requires rows { first_row + rows ≤ rows_of tiling.now }
        requires limits { IsWithinLimits tiling.now }
        requires few { length list.now.triangles ≤ 65536 }
        requires candidates { AreCandidates list.now tiling.now first_row rows (length list.now.triangles) numbers.now }
        ensures few { IfOk result (λ runs. length runs.items ≤ 2 ^ 25) }
        ensures runs { IfOk result (λ runs. AreTileRuns list.now tiling.now first_row rows (length list.now.triangles) 0
            runs.items) }
    {
        let mut runs = Vec::new(alloc);
        let Some(mut fetched) = Fetched::of(list, numbers) else {
            return Ok(runs);
        };
        for place in 0..numbers.len() {
            fetched.go_on(list, numbers, place);
            push_runs(
                list,
                numbers[place],
                fetched.triangle(place),
                tiling,
                first_row,
                rows,
                &mut runs,
            )?;
        }
        Ok(runs)
    }
}

ghost use Rattle.bins.specs.TileRuns.{AreTileRuns};

/// Appends the runs of the triangle of this number to those of the triangles before it.
fn push_runs(
    list: &DrawList,
    number: u32,
    triangle: &Placed,
    tiling: &Tiling,
    first_row: u32,
    rows: u32,
    runs: &mut Vec<TileRun>,
) -> Result<(), AllocError>
    requires triangle { slice_get list.now.triangles number ≡ Some triangle.now }
    requires limits { IsWithinLimits tiling.now }
    requires rows { first_row + rows ≤ rows_of tiling.now }
    requires before { AreTileRuns list.now tiling.now first_row rows number 0 runs.old.items }
    ensures { OnOk result (AreTileRuns list.now tiling.now first_row rows (number + 1) 0 runs.new.items) }
{
    let Some(setup) = Setup::new(&triangle.tri, triangle.state.cull) else {
        return Ok(());
    };
    let side = tiling.side();
    let (columns, met) = tiles_met(triangle, &setup, side);
    let columns = columns.up_to(tiling.columns());
    for row in met.first.max(first_row)..met.end.min(first_row + rows) {
        let columns = columns_met(&setup, list.count(), side, row, columns);
        if columns.first < columns.end {
            let before = tiling.tiles_in(row - first_row);
            runs.push(TileRun {
                number,
                first: before + columns.first,
                end: before + columns.end,
            })?;
        }
    }
    Ok(())
}
