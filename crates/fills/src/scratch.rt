//! The scratch memory of polygons.
ghost use Rattle.std.specs.Prelude.{◌≡◌, ◌*◌, ◌≤◌, length};
ghost use Rattle.polygons.specs.Cells.{AreZeros, AreMasksAlone};
ghost use Rattle.fills.specs.Parts.{flag_columns_of, counter_columns_of};

use canvas::Canvas;
use polygons::{Flags, Rule};

/// How many columns of flags a call needs that draws polygons on the canvas by this rule: for each part of at most four
/// samples of a pixel, one for each column of blocks and each flag that a sample has.
pub fn flag_columns(canvas: &Canvas, rule: Rule) -> usize
    ensures value { result ≡ flag_columns_of rule canvas.now }
    ensures few { result ≤ 6144 }
{
    let blocks = 8 * canvas.column_count() as usize;
    canvas.count.parts() as usize * (rule.flags() * blocks)
}

/// How many columns of counters such a call needs by the nonzero rule: for each part one for each column of blocks.
pub fn counter_columns(canvas: &Canvas) -> usize
    ensures value { result ≡ counter_columns_of canvas.now }
    ensures few { result ≤ 2048 }
{
    let blocks = 8 * canvas.column_count() as usize;
    canvas.count.parts() as usize * blocks
}

/// Sets all flags to 0.
pub fn clear(flags: &mut [Flags])
    ensures len { length flags.new ≡ length flags.old }
    ensures zeros { AreZeros flags.new }
{
    for words in flags.iter_mut() {
        *words = [0; 32];
    }
}

/// Sets the masks of all parts to 0. Each has `each` columns of flags, of which the first `many` are those of its masks.
pub(crate) fn clear_masks(flags: &mut [Flags], parts: usize, many: usize, each: usize)
    requires wide { many ≤ each }
    requires columns { length flags.old ≡ parts * each }
    requires others { AreMasksAlone many each flags.old }
    ensures { AreZeros flags.new }
{
    for part in 0..parts {
        let from = part * each;
        clear(&mut flags[from..from + many]);
    }
}
