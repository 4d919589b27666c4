ghost use Rattle.std.specs.Prelude.{◌≡◌, ◌<◌, ◌+◌, ◌*◌, ◌/◌, ◌%◌, ℕ, List, [], ◌∷◌, ◌++◌, IfOk, OnOk};
ghost use Rattle.draw_list.specs.PixelPrefix.{AddsPixel, IsPixelPrefix};
ghost use Rattle.draw_list.specs.Picture.{IsPicture};

use crate::pixel::{Colour, colour_at, end_at};
use draw_list::{DrawList, Output, depth_bytes};
use grid::OutOfMemory;
use std::alloc::Global;

/// Appends the bytes of a colour.
fn push_colour(colour: Colour, bytes: &mut Vec<u8>) -> Result<(), OutOfMemory>
    ensures { OnOk result (bytes.new.items ≡ bytes.old.items ++ colour.r ∷ colour.g ∷ colour.b ∷ []) }
{
    bytes.extend_from_slice(&[colour.r, colour.g, colour.b])?;
    Ok(())
}

/// Appends the bytes of a depth, the more significant one first.
fn push_depth(depth: u16, bytes: &mut Vec<u8>) -> Result<(), OutOfMemory>
    ensures { OnOk result (bytes.new.items ≡ bytes.old.items ++ depth / 256 ∷ depth % 256 ∷ []) }
{
    bytes.extend_from_slice(&depth_bytes(depth))?;
    Ok(())
}

/// Appends the bytes of the pixel in column `px` and row `py`.
fn push_pixel(list: &DrawList, px: u32, py: u32, bytes: &mut Vec<u8>) -> Result<(), OutOfMemory>
    requires column { px < 4096 }
    requires row { py < 4096 }
    ensures { OnOk result (AddsPixel list.now px py bytes.old.items bytes.new.items) }
{
    match list.output() {
        Output::Color => push_colour(colour_at(list, px, py), bytes),
        Output::Depth => push_depth(end_at(list, px, py, 0).z, bytes),
    }
}

/// Appends the row of the picture with this number to the rows above it.
fn push_row(list: &DrawList, py: u32, bytes: &mut Vec<u8>) -> Result<(), OutOfMemory>
    requires row { py < 4096 }
    requires above { IsPixelPrefix list.now 0 0 list.now.width (py * list.now.width) bytes.old.items }
    ensures { OnOk result (IsPixelPrefix list.now 0 0 list.now.width ((py + 1) * list.now.width) bytes.new.items) }
{
    for px in 0..list.width() {
        push_pixel(list, px, py, bytes)?;
    }
    Ok(())
}

/// The bytes of the picture's rows: its colours, or its depths.
pub fn render(alloc: Global, list: &DrawList) -> Result<Vec<u8>, OutOfMemory>
    ensures picture { IfOk result (λ bytes. IsPicture list.now bytes.items) }
    ensures only { IfOk result (λ bytes. (other : List ℕ) → IsPicture list.now other → other ≡ bytes.items) }
{
    let mut bytes = Vec::new(alloc);
    for py in 0..list.height() {
        push_row(list, py, &mut bytes)?;
    }
    Ok(bytes)
}
