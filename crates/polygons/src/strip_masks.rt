//! What a polygon covers of a strip, as masks of its blocks.
ghost use Rattle.std.specs.Prelude.{◌≡◌, ℕ, ◌*◌, ◌<◌, ◌≤◌, length};
ghost use Rattle.grid.specs.Samples.{count_of, parts_of};
ghost use Rattle.polygons.specs.Blocks.{IsBlockMask};
ghost use Rattle.polygons.specs.Polygon.{polygon_edges};
ghost use Rattle.polygons.specs.Rings.{rings_from};
ghost use Rattle.polygons.specs.Runs.{AreRunsOf};
ghost use Rattle.polygons.specs.Cells.{flags_by, columns_in, part_columns, mask_at, HasCounters, AreMarked, AreMasksAlone, AreSumMasks, AreZeros, AreZerosFrom};
ghost use Rattle.polygons.specs.Plotting.{HasParts, IsPolygonPlotted};
ghost use Rattle.polygons.specs.Strip.{strip_sample};

use crate::cells::{Cells, Counters, Flags};
use crate::fill::fill;
use crate::plot::plot;
use crate::rings::Rings;
use crate::rule::Rule;
use crate::runs::Runs;
use crate::strip::Strip;
use crate::sum::sum;
use grid::SampleCount;

/// Sets the first flags of a part to masks: each bit says whether the sum of its row up to it is other than 0. The other
/// flags are 0 afterwards.
fn mask_part(flags: &mut [Flags], counters: &[Counters], rule: Rule)
    requires columns { HasCounters rule flags.old counters.now }
    requires marked { AreMarked rule flags.old counters.now }
    ensures len { length flags.new ≡ length flags.old }
    ensures bits { AreSumMasks rule flags.old counters.now flags.new }
    ensures others { AreZerosFrom (columns_in rule flags.old counters.now) flags.new }
{
    match rule {
        Rule::EvenOdd => fill(flags),
        Rule::NonZero => sum(flags, counters),
    }
}

/// Sets the first flags of each part to masks. A part has these many columns of flags and of counters.
fn mask_parts(
    flags: &mut [Flags],
    counters: &[Counters],
    rule: Rule,
    count: SampleCount,
    flagged: usize,
    counted: usize,
)
    requires flags { parts_of count * flagged ≤ length flags.old }
    requires counters { parts_of count * counted ≤ length counters.now }
    requires columns { (part : ℕ) → part < parts_of count →
        HasCounters rule (part_columns flags.old flagged part) (part_columns counters.now counted part) }
    requires marked { (part : ℕ) → part < parts_of count →
        AreMarked rule (part_columns flags.old flagged part) (part_columns counters.now counted part) }
    ensures len { length flags.new ≡ length flags.old }
    ensures bits { (part : ℕ) → part < parts_of count → AreSumMasks rule (part_columns flags.old flagged part)
        (part_columns counters.now counted part) (part_columns flags.new flagged part) }
    ensures others { (part : ℕ) → part < parts_of count →
        AreZerosFrom (columns_in rule (part_columns flags.old flagged part) (part_columns counters.now counted part))
        (part_columns flags.new flagged part) }
{
    for part in 0..count.parts() as usize {
        let from = part * flagged;
        let at = part * counted;
        mask_part(
            &mut flags[from..from + flagged],
            &counters[at..at + counted],
            rule,
        );
    }
}

/// Plots the edges of a polygon, by a loop for this number of parts.
fn plot_parts(cells: &mut Cells<'_>, rings: &Rings<'_>, runs: &Runs, strip: &Strip)
    requires room { HasParts strip.now cells.old }
    requires runs { AreRunsOf runs.now rings.now }
    ensures plotted { IsPolygonPlotted strip.now rings.now cells.old cells.new }
    ensures same_flags { cells.new.flags.ghost_name ≡ cells.old.flags.ghost_name }
    ensures same_counters { cells.new.counters.ghost_name ≡ cells.old.counters.ghost_name }
{
    match strip.count {
        SampleCount::One | SampleCount::Two | SampleCount::Four => {
            plot::<1>(cells, rings, runs, strip);
        }
        SampleCount::Eight => plot::<2>(cells, rings, runs, strip),
        SampleCount::Sixteen => plot::<4>(cells, rings, runs, strip),
    }
}

/// Sets the first flags to the masks of all samples of a strip, by columns of blocks: of a column for each row of blocks
/// the masks of four samples. There are as many columns of blocks for each part of at most four samples, those of one
/// part behind those of another. Bit 8 * row + column of a mask says whether the polygon covers that sample of the pixel
/// in this row and column of the block. Pixels lie in columns of eight from the strip's first pixel on, and in eight rows
/// of blocks. Words of samples that a part does not have stay 0. By the nonzero rule a part has two further columns of
/// flags for each column of blocks, which are zeros again afterwards, and a column of counters for each, whatever is in
/// them; the even-odd rule needs none.
pub fn cover_parts(
    flags: &mut [Flags],
    counters: &mut [Counters],
    rule: Rule,
    rings: &Rings<'_>,
    runs: &Runs,
    strip: &Strip,
    columns: usize,
)
    requires flags { AreZeros flags.old }
    requires parts { length flags.old ≡ parts_of strip.now.count * (flags_by rule * columns) }
    requires counted { HasCounters rule flags.old counters.old }
    requires runs { AreRunsOf runs.now rings.now }
    ensures len { length flags.new ≡ length flags.old }
    ensures masks { (s row column : ℕ) → s < count_of strip.now.count → row < 8 → column < columns →
        IsBlockMask rule (polygon_edges (rings_from rings.now.corners.now rings.now.start rings.now.ends.now))
        (strip_sample strip.now s (8 * row) (8 * column)) (mask_at flags.new (flags_by rule * columns) column row s) }
    ensures others { AreMasksAlone columns (flags_by rule * columns) flags.new }
{
    let flagged = rule.flags() * columns;
    let counted = match rule {
        Rule::EvenOdd => 0,
        Rule::NonZero => columns,
    };
    let mut cells = Cells {
        rule,
        columns,
        flagged,
        counted,
        flags: &mut *flags,
        counters: &mut *counters,
    };
    plot_parts(&mut cells, rings, runs, strip);
    mask_parts(flags, counters, rule, strip.count, flagged, counted);
}
