//! What the stroke of a path covers of a strip, as masks of its blocks.
ghost use Rattle.std.specs.Prelude.{◌≡◌, ◌⊎◌, ◌↔◌, ℕ, ◌*◌, ◌<◌, ◌≤◌, length};
ghost use Rattle.grid.specs.Samples.{count_of, parts_of};
ghost use Rattle.polygons.specs.Cells.{mask_at, AreZeros};
ghost use Rattle.polygons.specs.Strip.{strip_sample};
ghost use Rattle.strokes.specs.Stroke.{IsStyle, StrokeCovers};
ghost use Rattle.strokes.specs.Marking.{IsMarkedAt, IsStrokeMask};

use crate::blocks::Blocks;
use crate::style::Style;
use crate::tip::mark_stroke;
use grid::Point;
use polygons::{Flags, Strip};

/// Marks the samples of a strip that the stroke of a path covers, in masks like those of `polygons::cover_parts` by the
/// even-odd rule: of each part of at most four samples there are as many columns of words as of blocks. What is marked
/// already stays marked, so several paths can make one stroke.
pub fn mark_path(flags: &mut [Flags], path: &[Point], style: Style, strip: &Strip, columns: usize)
    requires style { IsStyle style }
    requires narrow { columns ≤ 512 }
    requires room { parts_of strip.now.count * columns ≤ length flags.old }
    ensures len { length flags.new ≡ length flags.old }
    ensures bits { (s row k : ℕ) → s < count_of strip.now.count → row < 64 → k < 8 * columns →
        IsMarkedAt flags.new columns s row k ↔
        (IsMarkedAt flags.old columns s row k ⊎ StrokeCovers style path.now (strip_sample strip.now s row k)) }
    ensures masks { AreZeros flags.old → (s row column : ℕ) → s < count_of strip.now.count → row < 8 → column < columns →
        IsStrokeMask style path.now (strip_sample strip.now s (8 * row) (8 * column)) (mask_at flags.new columns column row s) }
{
    let blocks = Blocks {
        strip: *strip,
        columns,
    };
    mark_stroke(path, style, &blocks, flags);
}
