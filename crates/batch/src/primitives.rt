//! Primitives by the indices of their vertices.
ghost use Rattle.std.specs.Prelude.{◌≡◌, ◌<◌, ◌≤◌, ℕ, ℤ, List, [], length, slice_index_or};
ghost use Rattle.draw_list.specs.Primitives.{triangles_of, count_of_triangles};
ghost use Rattle.batch.specs.declared.vertex.BatchVertex.{BatchVertex};
ghost use Rattle.batch.specs.Listed.{corners_of, primitives_listed};
ghost use Rattle.batch.specs.Seen.{NameSeenVertices};
ghost use Rattle.batch.specs.OwnIndices.{indices_given, count_of_indices};
ghost use Rattle.batch.specs.Places.{places_of};
ghost use Rattle.batch.specs.Checks.{triangles_listed};

use crate::draw::BatchDraw;
use crate::indices::{BatchIndices, Indices};
use draw_list::{quads_count, strip_count};

/// How many indices each of the primitives of this topology takes.
pub(crate) fn corners(topology: u8) -> usize
    ensures value { result ≡ corners_of topology }
    ensures least { 1 ≤ result }
{
    match topology {
        0 => 3,
        1 => 1,
        _ => 4,
    }
}

/// How many triangles the primitives of this topology with this many indices are.
#[tactic(auto, using(crate::proofs::Chunks::count_of_chunks))]
pub(crate) fn triangle_count(topology: u8, indices: usize) -> usize
    ensures value { (listed : List ℕ) → length listed ≡ indices →
        result ≡ count_of_triangles (primitives_listed topology listed) }
    ensures few { result ≤ indices }
{
    match topology {
        0 => indices / 3,
        1 => strip_count(indices),
        _ => quads_count(indices / 4),
    }
}

/// How many triangles a draw has, whose indices are the first of these.
pub(crate) fn triangles_of_draw(draw: &BatchDraw, indices: &BatchIndices<'_>) -> usize
    requires { draw.now.indices ≤ count_of_indices (indices_given indices.now) }
    ensures { result ≡ triangles_listed draw.now (indices_given indices.now) }
{
    triangle_count(draw.topology, indices.own_count(draw))
}

/// Where the indices of the triangle of this number stand among those of its draw.
#[inline(always)]
fn places(topology: u8, number: usize) -> [usize; 3]
    requires topology { topology ≤ 2 }
    requires number { number ≤ 4611686018427387904 }
    ensures { result ≡ places_of topology number }
{
    match topology {
        0 => [3 * number, 3 * number + 1, 3 * number + 2],
        1 => [number, number + 1 + number % 2, number + 2 - number % 2],
        _ => {
            let first = number / 2 * 4;
            match number % 2 {
                0 => [first, first + 1, first + 2],
                _ => [first + 2, first + 3, first],
            }
        }
    }
}

/// The indices of the triangle of this number.
#[inline(always)]
pub(crate) fn triangle<I: Indices>(topology: u8, indices: &I, number: usize) -> [usize; 3]
    requires fits { length (I.listed indices.now) ≤ 4611686018427387904 }
    requires topology { topology ≤ 2 }
    requires number { number < count_of_triangles (primitives_listed topology (I.listed indices.now)) }
    ensures value { result ≡ slice_index_or (triangles_of (primitives_listed topology (I.listed indices.now))) number [] }
    ensures named { (x y : ℤ) (vertices : List BatchVertex) → NameSeenVertices x y vertices (I.listed indices.now) →
        NameSeenVertices x y vertices result }
{
    let place = places(topology, number);
    let (first, second) = (indices.at(place[0]), indices.at(place[1]));
    [first, second, indices.at(place[2])]
}
