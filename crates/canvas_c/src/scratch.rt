//! The scratch memory of calls that draw polygons.
ghost use Rattle.std.specs.Prelude.{◌≡◌, ◌≤◌, ◌==◌, if◌then◌else◌};
ghost use Rattle.canvas_c.specs.Pieces.{IsWhole};
ghost use Rattle.canvas_c.specs.Scratch.{layout_of, layout_listed, flag_columns_listed, counter_columns_listed};

use crate::piece::{CanvasHead, whole};
use crate::polygon_arrays::rule_of;
use fills::{counter_columns, flag_columns};
use polygons::{Counters, Flags};

/// What lies where in scratch memory, laid out as in C: columns of flags, and after them columns of counters.
#[repr(C)]
#[derive(Clone, Copy, Debug, PartialEq, Eq)]
pub struct ScratchLayout {
    /// How many columns of flags there are.
    pub flag_columns: usize,
    /// How many columns of counters there are.
    pub counter_columns: usize,
    /// The byte at which the counters begin.
    pub counters_at: usize,
    /// The bytes of both.
    pub size: usize,
}

impl ScratchLayout {
    /// The layout of as many columns of each.
    fn of(flag_columns: usize, counter_columns: usize) -> ScratchLayout
        requires flags { flag_columns ≤ 6144 }
        requires counters { counter_columns ≤ 2048 }
        ensures { result ≡ layout_of flag_columns counter_columns }
    {
        let counters_at = size_of::<Flags>() * flag_columns;
        ScratchLayout {
            flag_columns,
            counter_columns,
            counters_at,
            size: counters_at + size_of::<Counters>() * counter_columns,
        }
    }
}

/// Says how large the scratch memory is of a call that draws polygons by this rule on the canvas, and what lies where.
/// All numbers are 0 if there is no such canvas.
#[unsafe(no_mangle)]
pub extern "C" fn trirast_proved_polygons_scratch(
    head: &CanvasHead,
    fill_rule: u32,
    layout: &mut ScratchLayout,
)
    ensures value { IsWhole head.now → layout.new ≡ layout_listed head.now fill_rule }
    ensures none { ¬ IsWhole head.now → layout.new ≡ layout_of 0 0 }
{
    *layout = match whole(head) {
        Some(canvas) => ScratchLayout::of(
            flag_columns(&canvas, rule_of(fill_rule)),
            if fill_rule == 0 {
                0
            } else {
                counter_columns(&canvas)
            },
        ),
        None => ScratchLayout::of(0, 0),
    };
}
