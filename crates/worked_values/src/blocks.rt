//! The calls of `cover`, and those of `bins` that need no list.
ghost use Rattle.std.specs.Prelude.{◌<◌, IfSome, IsTrue};
ghost use Rattle.cover.specs.Square.{IsCorner};

use crate::answer::{Answer, whole};
use crate::words::Words;
use cover::{Pair, Setup, Square, pair_masks, quad_masks};
use grid::{Cull, SampleCount, TileSide};
use tiling::Tiling;

/// A block of the screen.
fn block_of(words: &mut Words<'_>) -> Option<(u32, u32)>
    ensures { IfSome result (λ it. (it.0 < 512) × (it.1 < 512)) }
{
    let (bx, by) = (words.number()?, words.number()?);
    (bx < 512 && by < 512).then_some((bx, by))
}

pub(crate) fn is_set_up_of(words: &mut Words<'_>) -> Option<Answer> {
    let (cull, t) = (words.cull()?, words.triangle()?);
    Some(Answer::Truth(Setup::new(&t, cull).is_some()))
}

pub(crate) fn bounds_of(words: &mut Words<'_>) -> Option<Answer> {
    let setup = Setup::new(&words.triangle()?, Cull::None)?;
    Some(Answer::Rectangle(setup.bounds()))
}

pub(crate) fn masks_of(words: &mut Words<'_>) -> Option<Answer> {
    let setup = Setup::new(&words.triangle()?, Cull::None)?;
    let (bx, by) = block_of(words)?;
    let count = words.samples()?;
    Some(Answer::Covered(count.part_size(), setup.masks(bx, by, count)))
}

pub(crate) fn masks_of_part_of(words: &mut Words<'_>) -> Option<Answer> {
    let setup = Setup::new(&words.triangle()?, Cull::None)?;
    let (bx, by) = block_of(words)?;
    let (from, count) = (words.number()?, words.samples()?);
    if from < 16 && from + count.part_size() <= count.count() {
        let block = setup.square(bx, by, TileSide::T8, count);
        Some(Answer::Covered(count.part_size(), block.masks_of_part::<0>(from)))
    } else {
        None
    }
}

pub(crate) fn pair_masks_of(words: &mut Words<'_>) -> Option<Answer> {
    let (a, b) = (words.point()?, words.point()?);
    let (c, d) = (words.point()?, words.point()?);
    let (bx, by) = block_of(words)?;
    let count = words.samples()?;
    let Some(pair) = Pair::new(a, b, c, d) else {
        return Some(Answer::Nothing);
    };
    let (first, second) = pair_masks(&pair, bx, by, count);
    Some(Answer::BothCovered(count.part_size(), first, second))
}

pub(crate) fn quad_masks_of(words: &mut Words<'_>) -> Option<Answer> {
    let quad = words.quad()??;
    let (bx, by) = block_of(words)?;
    let count = words.samples()?;
    let masks = quad_masks(&quad, bx, by, count);
    Some(Answer::Covered(count.part_size(), masks))
}

/// Whether a square of this size may begin at this block column or row.
fn is_corner(side: TileSide, block: u32) -> bool
    ensures { IsTrue result → IsCorner side block }
{
    block < 512 && 8 * block % side.pixels() == 0
}

/// A square's block column, block row and size, and how many samples a pixel has.
fn square(words: &mut Words<'_>) -> Option<(u32, u32, TileSide, SampleCount)>
    ensures { IfSome result (λ it. IsCorner it.2 it.0 × IsCorner it.2 it.1) }
{
    let (bx, by) = (words.number()?, words.number()?);
    let (side, count) = (words.tile_side()?, words.samples()?);
    (is_corner(side, bx) && is_corner(side, by)).then_some((bx, by, side, count))
}

fn described(square: &Square) -> Answer {
    Answer::Square(square.bx(), square.by(), square.side(), square.class())
}

pub(crate) fn class_of(words: &mut Words<'_>) -> Option<Answer> {
    let setup = Setup::new(&words.triangle()?, Cull::None)?;
    let (bx, by, side, count) = square(words)?;
    Some(Answer::Classed(setup.classify(bx, by, side, count)))
}

pub(crate) fn square_of(words: &mut Words<'_>) -> Option<Answer> {
    let setup = Setup::new(&words.triangle()?, Cull::None)?;
    let (bx, by, side, count) = square(words)?;
    Some(described(&setup.square(bx, by, side, count)))
}

pub(crate) fn quarter_of(words: &mut Words<'_>) -> Option<Answer> {
    let setup = Setup::new(&words.triangle()?, Cull::None)?;
    let (bx, by, side, count) = square(words)?;
    let q = words.number()?;
    if side.pixels() > 8 && q < 4 {
        Some(described(&setup.square(bx, by, side, count).quarter(q)))
    } else {
        None
    }
}

fn tiling(words: &mut Words<'_>) -> Option<Tiling> {
    let (width, height) = (words.number()?, words.number()?);
    let side = words.tile_side()?;
    if 1 <= width && width <= 4096 && 1 <= height && height <= 4096 {
        Some(Tiling::new(width, height, side))
    } else {
        None
    }
}

pub(crate) fn tiles_of(words: &mut Words<'_>) -> Option<Answer> {
    Some(whole(tiling(words)?.tiles()))
}

pub(crate) fn columns_and_rows_of(words: &mut Words<'_>) -> Option<Answer> {
    let tiling = tiling(words)?;
    Some(Answer::Place(i64::from(tiling.columns()), i64::from(tiling.rows())))
}

pub(crate) fn size_of(words: &mut Words<'_>) -> Option<Answer> {
    let tiling = tiling(words)?;
    Some(Answer::Place(i64::from(tiling.width()), i64::from(tiling.height())))
}

pub(crate) fn side_of(words: &mut Words<'_>) -> Option<Answer> {
    Some(whole(tiling(words)?.side().pixels()))
}

pub(crate) fn tile_rectangle_of(words: &mut Words<'_>) -> Option<Answer> {
    let tiling = tiling(words)?;
    let k = words.number()?;
    if k < tiling.tiles() {
        Some(Answer::Rectangle(tiling.rect(k)))
    } else {
        None
    }
}

pub(crate) fn tile_at_of(words: &mut Words<'_>) -> Option<Answer> {
    let tiling = tiling(words)?;
    Some(match tiling.tile_of(words.number()?, words.number()?) {
        Some(k) => whole(k),
        None => Answer::Nothing,
    })
}
