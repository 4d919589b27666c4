//! Where the edges of a polygon are first crossed in the rows of a strip: each edge is looked at once, walked down by up to
//! four samples of a pixel at once, and adds to one cell of each row that it runs through.
ghost use Rattle.std.specs.Prelude.{◌≡◌, ℕ, ◌+◌, ◌*◌, ◌^◌, ◌<◌, ◌≤◌, ◌<ℤ◌, ◌≤ℤ◌, length, map, IsTrue, IfSome};
ghost use Rattle.grid.specs.Position.{Position, IsInBand};
ghost use Rattle.grid.specs.Samples.{part_size, parts_of};
ghost use Rattle.polygons.specs.Crossing.{winding};
ghost use Rattle.polygons.specs.Short.{IsShortEdge};
ghost use Rattle.polygons.specs.Polygon.{path_edges, path_end, ring_edges};
ghost use Rattle.polygons.specs.Rings.{position_of, end_of, corners_between, AreCornersInBand};
ghost use Rattle.polygons.specs.Crossed.{AreCrossed};
ghost use Rattle.polygons.specs.Placed.{AreInOneBlock};
ghost use Rattle.polygons.specs.Runs.{corner_at, AreRunsOf, IsCrossedAsChord};
ghost use Rattle.polygons.specs.Strip.{strip_sample};
ghost use Rattle.polygons.specs.Rows.{direction};
ghost use Rattle.polygons.specs.Walking.{IsDescent};
ghost use Rattle.polygons.specs.Cells.{signed, HasCounters, IsPlotted};
ghost use Rattle.polygons.specs.Plotting.{ArePlotted, HasParts, IsPartPlotted, IsPolygonPlotted};

use crate::apart::is_apart;
use crate::cells::{Cells, Counters, Flags, cross};
use crate::corner::Corner;
use crate::edge::Edge;
use crate::part_rows::cross_row;
use crate::rings::Rings;
use crate::rule::Rule;
use crate::runs::Runs;
use crate::short::is_short;
use crate::short_crossings::ShortCrossings;
use crate::short_places::ShortPlaces;
use crate::starts::Starts;
use crate::strip::Strip;
use crate::walk::{Descent, PartWalk};
use grid::{Point, SampleCount};

/// Marks where a short edge is crossed by samples of each index of a part, one after another. Few parts need it.
#[inline(never)]
fn plot_short_each(
    flags: &mut [Flags],
    counters: &mut [Counters],
    rule: Rule,
    edge: &Edge,
    forward: bool,
    starts: &Starts,
    part: usize,
    crossings: &ShortCrossings,
)
    requires short { IsShortEdge edge.now }
    requires runs_down { edge.now.a.y ≤ℤ edge.now.b.y }
    requires part { part < parts_of starts.now.strip.count }
    requires counters { HasCounters rule flags.old counters.old }
    requires crossings { AreCrossed starts.now.strip edge.now crossings.now }
    ensures { IsPlotted rule starts.now.strip part (λ p. signed forward (direction edge.now p)) flags.old counters.old
        flags.new counters.new }
{
    let mut rest = crossings.bits >> (4 * part) & 15;
    while rest != 0 {
        let s = rest.trailing_zeros() as usize;
        let row = crossings.row(4 * part + s);
        let column = crossings.column(4 * part + s);
        cross(flags, counters, rule, s, row, column, forward);
        rest &= rest - 1;
    }
}

/// Marks where a short edge is crossed by samples of each index of a part. All crossings lie in one block.
#[inline(always)]
fn plot_placed_samples(
    flags: &mut [Flags],
    counters: &mut [Counters],
    rule: Rule,
    edge: &Edge,
    forward: bool,
    starts: &Starts,
    part: usize,
    crossings: &ShortCrossings,
    places: &ShortPlaces,
)
    requires short { IsShortEdge edge.now }
    requires runs_down { edge.now.a.y ≤ℤ edge.now.b.y }
    requires part { part < parts_of starts.now.strip.count }
    requires counters { HasCounters rule flags.old counters.old }
    requires crossings { AreCrossed starts.now.strip edge.now crossings.now }
    requires places { AreInOneBlock crossings.now places.now }
    ensures { IsPlotted rule starts.now.strip part (λ p. signed forward (direction edge.now p)) flags.old counters.old
        flags.new counters.new }
{
    if !places.flip(
        flags, counters, rule, edge, forward, starts, part, crossings,
    ) {
        plot_short_each(
            flags, counters, rule, edge, forward, starts, part, crossings,
        );
    }
}

/// Marks where a short edge is crossed by samples of each index of a part.
#[inline(always)]
fn plot_short_samples(
    flags: &mut [Flags],
    counters: &mut [Counters],
    rule: Rule,
    edge: &Edge,
    forward: bool,
    starts: &Starts,
    part: usize,
    crossings: &ShortCrossings,
    places: &Option<ShortPlaces>,
)
    requires short { IsShortEdge edge.now }
    requires runs_down { edge.now.a.y ≤ℤ edge.now.b.y }
    requires part { part < parts_of starts.now.strip.count }
    requires counters { HasCounters rule flags.old counters.old }
    requires crossings { AreCrossed starts.now.strip edge.now crossings.now }
    requires places { IfSome places.now (λ p. AreInOneBlock crossings.now p) }
    ensures { IsPlotted rule starts.now.strip part (λ p. signed forward (direction edge.now p)) flags.old counters.old
        flags.new counters.new }
{
    match places {
        Some(placed) => plot_placed_samples(
            flags, counters, rule, edge, forward, starts, part, crossings, placed,
        ),
        None => plot_short_each(
            flags, counters, rule, edge, forward, starts, part, crossings,
        ),
    }
}

/// Marks where a short edge is crossed by samples of a part.
#[inline(always)]
fn plot_short_part(
    cells: &mut Cells<'_>,
    edge: &Edge,
    forward: bool,
    starts: &Starts,
    part: usize,
    crossings: &ShortCrossings,
    places: &Option<ShortPlaces>,
)
    requires short { IsShortEdge edge.now }
    requires runs_down { edge.now.a.y ≤ℤ edge.now.b.y }
    requires part { part < parts_of starts.now.strip.count }
    requires room { HasParts starts.now.strip cells.old }
    requires crossings { AreCrossed starts.now.strip edge.now crossings.now }
    requires places { IfSome places.now (λ p. AreInOneBlock crossings.now p) }
    ensures { IsPartPlotted starts.now.strip part (λ p. signed forward (direction edge.now p)) cells.old cells.new }
{
    let from = part * cells.flagged;
    let counted = part * cells.counted;
    plot_short_samples(
        &mut cells.flags[from..from + cells.flagged],
        &mut cells.counters[counted..counted + cells.counted],
        cells.rule,
        edge,
        forward,
        starts,
        part,
        crossings,
        places,
    );
}

/// Marks where a short edge is crossed by samples of each part.
#[inline(always)]
fn plot_short<const PARTS: usize>(
    cells: &mut Cells<'_>,
    edge: &Edge,
    forward: bool,
    starts: &Starts,
)
    requires short { IsShortEdge edge.now }
    requires runs_down { edge.now.a.y ≤ℤ edge.now.b.y }
    requires parts { parts_of starts.now.strip.count ≡ PARTS }
    requires room { HasParts starts.now.strip cells.old }
    ensures { ArePlotted starts.now.strip (λ p. signed forward (direction edge.now p)) cells.old cells.new }
{
    let crossings = ShortCrossings::of(edge, starts);
    if crossings.bits == 0 {
        return;
    }
    let places = ShortPlaces::of(&crossings);
    for part in 0..PARTS {
        plot_short_part(cells, edge, forward, starts, part, &crossings, &places);
    }
}

/// Marks where an edge is crossed by samples of each index of a part, walking it down from row to row.
#[inline(always)]
fn plot_rows<const SIZE: usize>(
    flags: &mut [Flags],
    counters: &mut [Counters],
    rule: Rule,
    descent: &Descent,
    forward: bool,
    starts: &Starts,
    part: usize,
)
    requires descent { IsDescent starts.now.strip descent.now }
    requires part { part < parts_of starts.now.strip.count }
    requires size { part_size starts.now.strip.count ≡ SIZE }
    requires counters { HasCounters rule flags.old counters.old }
    ensures { IsPlotted rule starts.now.strip part (λ p. signed forward (direction descent.now.edge p)) flags.old
        counters.old flags.new counters.new }
{
    let from = starts.rows(part, descent.edge.a.y());
    let to = starts.rows(part, descent.edge.b.y());
    let mut walk = PartWalk::new(descent, starts, part);
    let descent = *descent;
    for row in descent.first..descent.end {
        cross_row::<SIZE>(
            flags,
            counters,
            rule,
            row,
            &walk.columns,
            &from,
            &to,
            forward,
        );
        walk = walk.next(&descent);
    }
}

/// Marks where an edge is crossed by samples of each index of a part. Their number is known in each call, so that the
/// compiler takes them at once.
#[inline(always)]
fn plot_long_samples(
    flags: &mut [Flags],
    counters: &mut [Counters],
    rule: Rule,
    descent: &Descent,
    forward: bool,
    starts: &Starts,
    part: usize,
)
    requires descent { IsDescent starts.now.strip descent.now }
    requires part { part < parts_of starts.now.strip.count }
    requires counters { HasCounters rule flags.old counters.old }
    ensures { IsPlotted rule starts.now.strip part (λ p. signed forward (direction descent.now.edge p)) flags.old
        counters.old flags.new counters.new }
{
    match starts.strip.count {
        SampleCount::One => {
            plot_rows::<1>(flags, counters, rule, descent, forward, starts, part);
        }
        SampleCount::Two => {
            plot_rows::<2>(flags, counters, rule, descent, forward, starts, part);
        }
        SampleCount::Four | SampleCount::Eight | SampleCount::Sixteen => {
            plot_rows::<4>(flags, counters, rule, descent, forward, starts, part);
        }
    }
}

/// Marks where an edge is crossed by samples of a part, in its columns.
#[inline(always)]
fn plot_long_part(
    cells: &mut Cells<'_>,
    descent: &Descent,
    forward: bool,
    starts: &Starts,
    part: usize,
)
    requires descent { IsDescent starts.now.strip descent.now }
    requires part { part < parts_of starts.now.strip.count }
    requires room { HasParts starts.now.strip cells.old }
    ensures { IsPartPlotted starts.now.strip part (λ p. signed forward (direction descent.now.edge p)) cells.old
        cells.new }
{
    let from = part * cells.flagged;
    let counted = part * cells.counted;
    plot_long_samples(
        &mut cells.flags[from..from + cells.flagged],
        &mut cells.counters[counted..counted + cells.counted],
        cells.rule,
        descent,
        forward,
        starts,
        part,
    );
}

/// Marks where an edge is crossed by samples of each part, walking it down from row to row.
#[inline(never)]
fn plot_long<const PARTS: usize>(cells: &mut Cells<'_>, edge: Edge, forward: bool, starts: &Starts)
    requires runs_down { edge.a.y <ℤ edge.b.y }
    requires parts { parts_of starts.now.strip.count ≡ PARTS }
    requires room { HasParts starts.now.strip cells.old }
    ensures { ArePlotted starts.now.strip (λ p. signed forward (direction edge p)) cells.old cells.new }
{
    let descent = Descent::of(edge, &starts.strip);
    for part in 0..PARTS {
        plot_long_part(cells, &descent, forward, starts, part);
    }
}

/// Counts an edge in the rows of a strip.
#[inline(always)]
fn plot_edge<const PARTS: usize>(cells: &mut Cells<'_>, edge: Edge, starts: &Starts)
    requires parts { parts_of starts.now.strip.count ≡ PARTS }
    requires room { HasParts starts.now.strip cells.old }
    ensures { ArePlotted starts.now.strip (λ p. direction edge p) cells.old cells.new }
{
    let (downwards, forward) = edge.turned_down();
    if is_short(&downwards) {
        plot_short::<PARTS>(cells, &downwards, forward, starts);
        return;
    }
    if is_apart(&edge, &starts.strip, cells.columns) {
        return;
    }
    if downwards.a.y() < downwards.b.y() {
        plot_long::<PARTS>(cells, downwards, forward, starts);
    }
}

/// Counts the edges of a path from a corner through others. Returns the last corner.
fn plot_path<const PARTS: usize>(
    cells: &mut Cells<'_>,
    from: Point,
    corners: &[Corner],
    starts: &Starts,
) -> Point
    requires parts { parts_of starts.now.strip.count ≡ PARTS }
    requires room { HasParts starts.now.strip cells.old }
    requires corners { AreCornersInBand corners.now }
    ensures plotted { ArePlotted starts.now.strip (λ p. winding (path_edges from (map position_of corners.now)) p)
        cells.old cells.new }
    ensures end { result ≡ path_end from (map position_of corners.now) }
{
    let mut from = from;
    for corner in corners {
        let to = corner.at();
        plot_edge::<PARTS>(cells, Edge { a: from, b: to }, starts);
        from = to;
    }
    from
}

/// Counts the edges of a path from a corner through others. If these lie in a box beside the strip, the path is crossed
/// there as the edge from its first corner to its last one is. Returns the last corner.
fn plot_run<const PARTS: usize>(
    cells: &mut Cells<'_>,
    from: Point,
    corners: &[Corner],
    is_beside: bool,
    starts: &Starts,
) -> Point
    requires parts { parts_of starts.now.strip.count ≡ PARTS }
    requires room { HasParts starts.now.strip cells.old }
    requires corners { AreCornersInBand corners.now }
    requires chord { IsTrue is_beside → (s row k : ℕ) → row < 64 → k < 8 * cells.old.columns →
        IsCrossedAsChord from (map position_of corners.now) (strip_sample starts.now.strip s row k) }
    ensures plotted { ArePlotted starts.now.strip (λ p. winding (path_edges from (map position_of corners.now)) p)
        cells.old cells.new }
    ensures end { result ≡ path_end from (map position_of corners.now) }
{
    if !is_beside {
        return plot_path::<PARTS>(cells, from, corners, starts);
    }
    match corners {
        [] => from,
        [.., last] => {
            let end = last.at();
            plot_edge::<PARTS>(cells, Edge { a: from, b: end }, starts);
            end
        }
    }
}

/// Counts the edges of a ring but its last one, run by run. The ring has the corners from index `begin` to before
/// `end`. Returns its last corner.
fn plot_runs<const PARTS: usize>(
    cells: &mut Cells<'_>,
    rings: &Rings<'_>,
    runs: &Runs,
    begin: usize,
    end: usize,
    starts: &Starts,
) -> Point
    requires parts { parts_of starts.now.strip.count ≡ PARTS }
    requires room { HasParts starts.now.strip cells.old }
    requires runs { AreRunsOf runs.now rings.now }
    requires first { rings.now.start ≤ begin }
    requires some { begin < end }
    requires last { end ≤ end_of rings.now.start rings.now.ends.now }
    requires within { end ≤ length rings.now.corners.now }
    ensures plotted { ArePlotted starts.now.strip (λ p. winding (path_edges (corner_at rings.now.corners.now begin)
        (corners_between rings.now.corners.now (begin + 1) end)) p) cells.old cells.new }
    ensures end { result ≡ path_end (corner_at rings.now.corners.now begin)
        (corners_between rings.now.corners.now (begin + 1) end) }
{
    let start = rings.start as usize;
    let mut from = rings.corners[begin].at();
    let mut next = begin + 1;
    while next < end {
        let (run, held) = runs.run_of(next - 1 - start);
        let behind = end.min(start + held);
        let corners = &rings.corners[next..behind];
        let is_beside = runs.is_beside(run, &starts.strip, cells.columns);
        from = plot_run::<PARTS>(cells, from, corners, is_beside, starts);
        next = behind;
    }
    from
}

/// Counts the edges of the ring of the corners from index `begin` to before `end`.
fn plot_ring<const PARTS: usize>(
    cells: &mut Cells<'_>,
    rings: &Rings<'_>,
    runs: &Runs,
    begin: usize,
    end: usize,
    starts: &Starts,
)
    requires parts { parts_of starts.now.strip.count ≡ PARTS }
    requires room { HasParts starts.now.strip cells.old }
    requires runs { AreRunsOf runs.now rings.now }
    requires first { rings.now.start ≤ begin }
    requires last { end ≤ end_of rings.now.start rings.now.ends.now }
    requires within { end ≤ length rings.now.corners.now }
    ensures { ArePlotted starts.now.strip
        (λ p. winding (ring_edges (corners_between rings.now.corners.now begin end)) p) cells.old cells.new }
{
    if begin < end {
        let first = rings.corners[begin].at();
        let last = plot_runs::<PARTS>(cells, rings, runs, begin, end, starts);
        plot_edge::<PARTS>(cells, Edge { a: last, b: first }, starts);
    }
}

/// Counts the edges of a polygon, by the boxes of its runs.
pub(crate) fn plot<const PARTS: usize>(
    cells: &mut Cells<'_>,
    rings: &Rings<'_>,
    runs: &Runs,
    strip: &Strip,
)
    requires parts { parts_of strip.now.count ≡ PARTS }
    requires room { HasParts strip.now cells.old }
    requires runs { AreRunsOf runs.now rings.now }
    ensures plotted { IsPolygonPlotted strip.now rings.now cells.old cells.new }
    ensures same_flags { cells.new.flags.ghost_name ≡ cells.old.flags.ghost_name }
    ensures same_counters { cells.new.counters.ghost_name ≡ cells.old.counters.ghost_name }
{
    let starts = Starts::new(strip);
    let mut begin = rings.start as usize;
    for ring_end in rings.ends {
        let end = *ring_end as usize;
        plot_ring::<PARTS>(cells, rings, runs, begin, end, &starts);
        begin = end;
    }
}
