//! The checks of a batch, before anything is drawn.
ghost use Rattle.std.specs.Prelude.{◌≡◌, ◌<◌, ◌≤◌, ◌/◌, [], length, slice_index_or, ⊤};
ghost use Rattle.checks.specs.Checking.{IsJudged};
ghost use Rattle.draw_list.specs.Primitives.{quad_list};
ghost use Rattle.batch.specs.Listed.{quads_of};
ghost use Rattle.batch.specs.OwnIndices.{indices_given};
ghost use Rattle.batch.specs.Checks.{index_checks, position_checks, quad_checks, element_checks, primitives_checks, draw_checks, draws_checks};

use crate::draw::BatchDraw;
use crate::fault::{BatchCause, BatchFault, DrawFault};
use crate::ids::{after, has_ids};
use crate::indices::{BatchIndices, InOrder, Indices};
use crate::primitives::{corners, triangle_count, triangles_of_draw};
use crate::seen::{is_quad_seen, is_seen};
use crate::vertices::Vertices;
use canvas::Origin;

/// Checks that each index names one of `count` vertices.
fn check_indices<I: Indices>(indices: &I, count: usize) -> Result<(), DrawFault>
    ensures { IsJudged (index_checks count (I.listed indices.now)) (λ done. ⊤) result }
{
    for place in 0..indices.count() {
        let index = indices.at(place);
        if index >= count {
            return Err(DrawFault::bad_index(place, index));
        }
    }
    Ok(())
}

/// Checks that each vertex that an index names can be seen.
fn check_positions<V: Vertices, I: Indices>(
    vertices: &V,
    indices: &I,
    origin: &Origin,
) -> Result<(), DrawFault>
    ensures { IsJudged (position_checks origin.now.x origin.now.y (V.listed vertices.now) (I.listed indices.now)) (λ done. ⊤)
        result }
{
    for place in 0..indices.count() {
        let vertex = indices.at(place);
        if !is_seen(vertices, vertex, origin) {
            return Err(DrawFault::at_element(BatchCause::BadPosition, vertex));
        }
    }
    Ok(())
}

/// The quad of this number.
fn quad<I: Indices>(indices: &I, number: usize) -> [usize; 4]
    requires number { number < length (I.listed indices.now) / 4 }
    requires fits { length (I.listed indices.now) ≤ 18446744073709551615 }
    ensures { result ≡ slice_index_or (quads_of (I.listed indices.now)) number [] }
{
    let first = 4 * number;
    let (a, b) = (indices.at(first), indices.at(first + 1));
    let (c, d) = (indices.at(first + 2), indices.at(first + 3));
    [a, b, c, d]
}

/// Checks that the vertices of each quad can be seen, and that it is strictly convex.
fn check_each_quad<V: Vertices, I: Indices>(
    vertices: &V,
    indices: &I,
    origin: &Origin,
) -> Result<(), DrawFault>
    ensures { IsJudged (quad_checks origin.now.x origin.now.y (V.listed vertices.now)
        (quad_list (quads_of (I.listed indices.now)))) (λ done. ⊤) result }
{
    for number in 0..indices.count() / 4 {
        if !is_quad_seen(vertices, quad(indices, number), origin) {
            return Err(DrawFault::at_element(BatchCause::NotConvex, number));
        }
    }
    Ok(())
}

/// Checks the indices of a draw of these vertices, then the vertices that they name, then its quads, if it has any.
fn check_elements<V: Vertices, I: Indices>(
    topology: u8,
    vertices: &V,
    indices: &I,
    origin: &Origin,
) -> Result<(), DrawFault>
    ensures { IsJudged (element_checks origin.now.x origin.now.y (V.listed vertices.now) topology (I.listed indices.now))
        (λ done. ⊤) result }
{
    if let Err(fault) = check_indices(indices, vertices.count()) {
        return Err(fault);
    }
    if let Err(fault) = check_positions(vertices, indices, origin) {
        return Err(fault);
    }
    match topology {
        0 => Ok(()),
        1 => Ok(()),
        _ => check_each_quad(vertices, indices, origin),
    }
}

/// Checks the primitives of a draw of these vertices.
fn check_primitives<V: Vertices, I: Indices>(
    topology: u8,
    vertices: &V,
    indices: &I,
    origin: &Origin,
    ids: Option<u32>,
) -> Result<(), DrawFault>
    ensures { IsJudged (primitives_checks origin.now.x origin.now.y ids (V.listed vertices.now) topology (I.listed indices.now))
        (λ done. ⊤) result }
{
    let count = indices.count();
    if count % corners(topology) != 0 {
        return Err(DrawFault::of_draw(BatchCause::NotWhole));
    }
    if !has_ids(ids, triangle_count(topology, count)) {
        return Err(DrawFault::of_draw(BatchCause::TooManyIds));
    }
    check_elements(topology, vertices, indices, origin)
}

/// Checks a draw, whose vertices and indices are the first of these.
fn check_draw<V: Vertices>(
    draw: &BatchDraw,
    vertices: &V,
    indices: &BatchIndices<'_>,
    origin: &Origin,
    ids: Option<u32>,
) -> Result<(), DrawFault>
    ensures { IsJudged (draw_checks origin.now.x origin.now.y ids draw.now (V.listed vertices.now) (indices_given indices.now))
        (λ done. ⊤) result }
{
    let topology = draw.topology;
    if draw.vertices > vertices.count() {
        return Err(DrawFault::of_draw(BatchCause::TooFewVertices));
    }
    if draw.indices > indices.count() {
        return Err(DrawFault::of_draw(BatchCause::TooFewIndices));
    }
    if let Err(cause) = draw.check_state() {
        return Err(DrawFault::of_draw(cause));
    }
    let vertices = vertices.first(draw.vertices);
    match indices {
        BatchIndices::Words(all) => {
            let own = &all[..draw.indices];
            check_primitives(topology, &vertices, &own, origin, ids)
        }
        BatchIndices::Halves(all) => {
            let own = &all[..draw.indices];
            check_primitives(topology, &vertices, &own, origin, ids)
        }
        BatchIndices::InOrder => {
            let own = InOrder {
                count: draw.vertices,
            };
            check_primitives(topology, &vertices, &own, origin, ids)
        }
    }
}

/// Checks draws. Returns the fault of the first check that fails.
pub(crate) fn check_draws<V: Vertices>(
    draws: &[BatchDraw],
    vertices: &V,
    indices: &BatchIndices<'_>,
    origin: &Origin,
    ids: Option<u32>,
) -> Result<(), BatchFault>
    ensures { IsJudged (draws_checks origin.now.x origin.now.y 0 ids draws.now (V.listed vertices.now) (indices_given indices.now))
        (λ done. ⊤) result }
{
    let mut next_ids = ids;
    let (mut vertices_left, mut indices_left) = (*vertices, *indices);
    for (number, draw) in draws.iter().enumerate() {
        if let Err(fault) = check_draw(draw, &vertices_left, &indices_left, origin, next_ids) {
            return Err(fault.in_draw(number));
        }
        next_ids = after(next_ids, triangles_of_draw(draw, &indices_left));
        indices_left = indices_left.behind(draw.indices);
        vertices_left = vertices_left.behind(draw.vertices);
    }
    if vertices_left.count() > 0 || indices_left.count() > 0 {
        return Err(BatchFault::left_over());
    }
    Ok(())
}
