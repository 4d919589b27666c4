ghost use Rattle.std.specs.Prelude.{◌≡◌, ◌+◌, ◌<◌, ◌≤◌, length, slice_index, IfOk, sum_by};
ghost use Rattle.std.specs.List.Sorted.{IsNonDecreasing};
ghost use Rattle.draw_list.specs.Primitives.{primitive_listing, count_of_triangles};
ghost use Rattle.draw_list.specs.Starts.{AreStarts, IsDrawOfTriangle, AreOwners};

use crate::draw::Draw;
use std::alloc::{AllocError, Global};

/// The number of each draw's first triangle.
pub(crate) fn starts_of(alloc: Global, draws: &[Draw]) -> Result<Vec<u32>, AllocError>
    requires { sum_by (λ d. count_of_triangles (primitive_listing d.primitives)) draws.now ≤ 65536 }
    ensures { IfOk result (λ starts. AreStarts draws.now starts.items) }
{
    let mut starts = Vec::with_capacity(alloc, draws.len())?;
    let mut next = 0;
    for draw in draws {
        starts.push(next)?;
        next += draw.primitives.triangles() as u32;
    }
    Ok(starts)
}

/// The last draw that starts at this number or before it.
fn draw_of(starts: &[u32], number: usize) -> usize
    requires some { 0 < length starts.now }
    requires first { slice_index starts.now 0 ≤ number }
    requires ascending { IsNonDecreasing starts.now }
    ensures { IsDrawOfTriangle starts.now number result }
{
    starts.partition_point(|start| (*start as usize) <= number) - 1
}

/// The number of triangles from one entry of a table of owners to the next.
const STEP: usize = 16;

/// The draw of every sixteenth of `triangles` triangles, by the number of each draw's first triangle.
pub(crate) fn owners_of(
    alloc: Global,
    starts: &[u32],
    triangles: usize,
) -> Result<Vec<u16>, AllocError>
    requires some { 0 < triangles → 0 < length starts.now }
    requires few { length starts.now ≤ 1024 }
    requires many { triangles ≤ 65536 }
    requires first { slice_index starts.now 0 ≡ 0 }
    requires ascending { IsNonDecreasing starts.now }
    ensures { IfOk result (λ owners. AreOwners starts.now triangles owners.items) }
{
    let entries = if triangles == 0 {
        0
    } else {
        triangles / STEP + 2
    };
    let mut owners = Vec::with_capacity(alloc, entries)?;
    for entry in 0..entries {
        owners.push(draw_of(starts, STEP * entry) as u16)?;
    }
    Ok(owners)
}

/// The draw of the triangle of this number. If the entries of the table before and behind it are the same, it is that
/// draw; otherwise it is searched for.
pub(crate) fn owner(starts: &[u32], owners: &[u16], number: usize) -> usize
    requires owners { AreOwners starts.now (number + 1) owners.now }
    requires first { slice_index starts.now 0 ≡ 0 }
    requires ascending { IsNonDecreasing starts.now }
    ensures { IsDrawOfTriangle starts.now number result }
{
    let before = owners[number / STEP];
    if before == owners[number / STEP + 1] {
        usize::from(before)
    } else {
        draw_of(starts, number)
    }
}
