ghost use Rattle.std.specs.Prelude.{◌≡◌, ◌≤ℤ◌, pos, negsuc, List, ◌++◌, IfOk, OnOk, map};
ghost use Rattle.std.specs.List.{flat_map, All};
ghost use Rattle.grid.specs.Position.{IsInBand};
ghost use Rattle.shade.specs.declared.placed.Placed.{Placed};
ghost use Rattle.draw_list.specs.Listing.{draw_listing, placed_all, IsDrawWithinLimits};
ghost use Rattle.draw_list.specs.Rows as rows;

use crate::draw::Draw;
use crate::limits::MOST_PIXELS;
use grid::{Tri, greatest, least};
use std::alloc::{AllocError, Global};

/// The rows of pixels of the screen.
const SCREEN_ROWS: i32 = MOST_PIXELS as i32;

/// Rows of pixels of the screen, from `first` to before `end`. There are none if `end` is at most `first`, as for a
/// triangle above the screen or below it.
#[derive(Clone, Copy, Debug, PartialEq, Eq)]
pub struct RowSpan {
    /// The first row, at most 32767: past the screen if the triangle lies below it.
    pub first: u16,
    /// The row after the last one, at most 4096.
    pub end: u16,
}

/// The row of pixels of a y in 1/256 pixel.
fn row_of(y: i32) -> i32
    requires { IsInBand y }
    ensures value { result ≡ rows.pixel_row y }
    ensures low { negsuc 32767 ≤ℤ result }
    ensures high { result ≤ℤ pos 32767 }
{
    y.div_euclid(256)
}

impl RowSpan {
    /// The rows of the screen from that of a triangle's least y to that of its greatest.
    pub(crate) fn of(t: &Tri) -> RowSpan
        ensures { rows.IsRowSpan t.now result }
    {
        let first = row_of(least(t.a.y(), t.b.y(), t.c.y()));
        let last = row_of(greatest(t.a.y(), t.b.y(), t.c.y()));
        RowSpan {
            first: first.max(0) as u16,
            end: (last + 1).min(SCREEN_ROWS).max(0) as u16,
        }
    }
}

/// Appends the rows of a draw's triangles.
fn push_rows(draw: &Draw, spans: &mut Vec<RowSpan>) -> Result<(), AllocError>
    requires { IsDrawWithinLimits (draw_listing draw.now) }
    ensures { (before : List Placed) → rows.AreRows before spans.old.items →
        OnOk result (rows.AreRows (before ++ placed_all (draw_listing draw.now)) spans.new.items) }
{
    let triangles = draw.primitives.triangles();
    spans.reserve(triangles)?;
    for number in 0..triangles {
        spans.push(RowSpan::of(&draw.triangle(number).tri))?;
    }
    Ok(())
}

/// The rows of the triangles of these draws, in draw order.
pub(crate) fn rows_of(alloc: Global, draws: &[Draw]) -> Result<Vec<RowSpan>, AllocError>
    requires { All IsDrawWithinLimits (map draw_listing draws.now) }
    ensures { IfOk result (λ spans. rows.AreRows (flat_map placed_all (map draw_listing draws.now)) spans.items) }
{
    let mut spans = Vec::new(alloc);
    for draw in draws {
        push_rows(draw, &mut spans)?;
    }
    Ok(spans)
}
