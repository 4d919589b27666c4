ghost use Rattle.std.specs.Prelude.{◌≡◌, ◌<◌, ◌≤◌, ◌*◌, ◌+◌, length, IfOk};
ghost use Rattle.grid.specs.Samples.{count_of};
ghost use Rattle.list_history.specs.Counts.{AreCountsOf, AreCountsAt, AreCountSums, AreAtMost, no_counts, both_counts};

use crate::columns::Columns;
use crate::row::SampleRow;
use draw_list::DrawList;
use std::alloc::{AllocError, Global};

/// How many samples of a picture a triangle covers, changes and is shown by.
#[derive(Clone, Copy, Debug, PartialEq, Eq)]
pub struct SampleCounts {
    /// Those that it covers by the top-left rule, whether or not it is culled, scissored or masked there.
    pub covered: u32,
    /// Those that it changes: they store another colour or depth after it than before it.
    pub changed: u32,
    /// Those that still show it after all triangles: it is the last triangle that changes them.
    pub shown: u32,
}

/// The most samples that a picture has.
const MOST_SAMPLES: u32 = 16 * 4096 * 4096;

impl SampleCounts {
    /// No samples.
    pub(crate) fn none() -> SampleCounts
        ensures { result ≡ no_counts }
    {
        SampleCounts {
            covered: 0,
            changed: 0,
            shown: 0,
        }
    }

    /// The counts of these samples and of others.
    pub(crate) fn and(self, others: SampleCounts) -> SampleCounts
        requires these { AreAtMost MOST_SAMPLES self }
        requires others { AreAtMost MOST_SAMPLES others }
        ensures { result ≡ both_counts self others }
    {
        SampleCounts {
            covered: self.covered + others.covered,
            changed: self.changed + others.changed,
            shown: self.shown + others.shown,
        }
    }
}

/// Returns how many samples of the list's picture the triangle of this number covers, how many it changes, and how many
/// still show it after all triangles. Samples beside the triangle's bounds are not followed. Fails only if an
/// allocation fails.
pub fn counts_of(alloc: Global, list: &DrawList, number: usize) -> Result<SampleCounts, AllocError>
    requires { number < length list.now.triangles }
    ensures { IfOk result (AreCountsOf list.now number) }
{
    let mut counts = SampleCounts::none();
    for py in 0..list.height() {
        let of_row = counts_of_row(alloc, list, number, py)?;
        counts = counts.and(of_row);
    }
    Ok(counts)
}

/// What the triangle of this number does to the samples of row `py`, counted.
fn counts_of_row(
    alloc: Global,
    list: &DrawList,
    number: usize,
    py: u32,
) -> Result<SampleCounts, AllocError>
    requires number { number < length list.now.triangles }
    requires row { py < 4096 }
    ensures sums { IfOk result (AreCountSums
        (λ s c. AreCountSums (λ i d. AreCountsAt list.now number i py s d) list.now.width c) (count_of list.now.count)) }
    ensures at_most { IfOk result (AreAtMost 65536) }
{
    let mut counts = SampleCounts::none();
    let picture = Columns {
        first: 0,
        end: list.width(),
    };
    let rows = list.rows(number);
    if py < u32::from(rows.first) {
        return Ok(counts);
    }
    if u32::from(rows.end) <= py {
        return Ok(counts);
    }
    let columns = picture.of_triangle(&list.triangle(number).tri);
    for s in 0..list.count().count() {
        let samples = SampleRow {
            list,
            number,
            py,
            s,
            columns,
        };
        let of_samples = samples.counts(alloc)?;
        counts = counts.and(of_samples);
    }
    Ok(counts)
}
