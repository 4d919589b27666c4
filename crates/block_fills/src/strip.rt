//! The samples of a tile row, in columns of blocks.
ghost use Rattle.std.specs.Prelude.{◌≡◌, ◌+◌, ◌*◌, ◌<◌, ◌≤◌, length};
ghost use Rattle.grid.specs.Samples.{count_of};
ghost use Rattle.canvas.specs.Layout.{columns_of, rows_of, planes_of_row};
ghost use Rattle.block_fills.specs.Parts.{IsFlagged, RowsPaint};

use crate::change::Change;
use crate::column::paint_column;
use crate::masks::Masks;
use crate::whole::{is_whole, paint_whole};
use canvas::Canvas;
use grid::SampleCount;
use lanes::{BlockSamples, Fragment};

/// Draws the fragment at those samples of a tile row whose bits are set. There are masks of columns of blocks from column
/// `first` on. The eight columns of a tile that is drawn whole are drawn at once.
fn paint_strip<const COUNT: u32>(
    canvas: &Canvas,
    row: u32,
    first: u32,
    fragment: &Fragment,
    masks: &Masks<'_>,
    samples: &mut [BlockSamples],
)
    requires known { count_of canvas.now.count ≡ COUNT }
    requires row { row < rows_of canvas.now }
    requires count { masks.now.count ≡ canvas.now.count }
    requires columns { first + masks.now.columns ≤ 8 * columns_of canvas.now }
    requires samples { length samples.old ≡ planes_of_row canvas.now }
    ensures { RowsPaint fragment.now canvas.now row (row + 1)
        (IsFlagged fragment.now.state first masks.now.columns masks.now) samples.old samples.new }
{
    let each = canvas.planes_of_tile();
    let change = Change::of(fragment.state(), canvas.count);
    let mut k = 0;
    while k < masks.columns {
        let bx = first + k as u32;
        let tile = canvas.tile(bx / 8, row);
        let at = (bx / 8) as usize * each;
        if is_whole(fragment, &tile, bx, masks, k, &samples[at..at + each]) {
            paint_whole(fragment, &tile, &mut samples[at..at + each]);
            k += 8;
        } else {
            paint_column::<COUNT>(
                fragment,
                &tile,
                bx,
                masks,
                k,
                change,
                &mut samples[at..at + each],
            );
            k += 1;
        }
    }
}

/// Draws the fragment at those samples of a tile row whose bits are set. There are masks of columns of blocks from column
/// `first` on. Each number of samples of a pixel has code of its own.
pub fn paint_masks(
    canvas: &Canvas,
    row: u32,
    first: u32,
    fragment: &Fragment,
    masks: &Masks<'_>,
    samples: &mut [BlockSamples],
)
    requires row { row < rows_of canvas.now }
    requires count { masks.now.count ≡ canvas.now.count }
    requires columns { first + masks.now.columns ≤ 8 * columns_of canvas.now }
    requires samples { length samples.old ≡ planes_of_row canvas.now }
    ensures { RowsPaint fragment.now canvas.now row (row + 1)
        (IsFlagged fragment.now.state first masks.now.columns masks.now) samples.old samples.new }
{
    match canvas.count {
        SampleCount::One => paint_strip::<1>(canvas, row, first, fragment, masks, samples),
        SampleCount::Two => paint_strip::<2>(canvas, row, first, fragment, masks, samples),
        SampleCount::Four => paint_strip::<4>(canvas, row, first, fragment, masks, samples),
        SampleCount::Eight => paint_strip::<8>(canvas, row, first, fragment, masks, samples),
        SampleCount::Sixteen => paint_strip::<16>(canvas, row, first, fragment, masks, samples),
    }
}
