//! A batch, drawn.
ghost use Rattle.std.specs.Prelude.{◌≡◌, ◌≤◌, ℕ, Option, List, [], ◌∷◌, length, map, OnOk, OnErr, ⊤};
ghost use Rattle.draw_list.specs.Listing.{placed_all};
ghost use Rattle.batch.specs.declared.vertex.BatchVertex.{BatchVertex};
ghost use Rattle.batch.specs.Listed.{state_listed, draw_listed, whole_draw, draws_of};
ghost use Rattle.batch.specs.OwnIndices.{indices_given, count_of_indices};
ghost use Rattle.batch.specs.Vertices.{vertices_given};
ghost use Rattle.batch.specs.Parts.{all_seen};
ghost use Rattle.checks.specs.Checking.{IsJudged, Pass};
ghost use Rattle.canvas.specs.Window.{moved, moved_state};
ghost use Rattle.canvas.specs.Drawing.{HaveEnds};
ghost use Rattle.batch.specs.Seen.{triangles_seen};
ghost use Rattle.batch.specs.Ids.{drawn_as};
ghost use Rattle.batch.specs.Checks.{primitives_checks, draw_checks, batch_checks};

use crate::checking::check_draws;
use crate::draw::BatchDraw;
use crate::fault::BatchFault;
use crate::ids::after;
use crate::indices::{BatchIndices, InOrder, Indices};
use crate::part::Part;
use crate::primitives::triangles_of_draw;
use crate::strided::Strided;
use crate::vertices::{BatchVertices, Vertices};
use canvas::{Ids, Origin, Piece};

/// Draws the primitives of a draw, whose vertices and indices are its own and pass their checks.
fn draw_primitives<V: Vertices, I: Indices>(
    piece: &mut Piece<'_>,
    draw: &BatchDraw,
    vertices: V,
    indices: I,
    origin: &Origin,
    ids: Option<u32>,
    has_alpha: bool,
)
    requires known { draw.now.topology ≤ 2 }
    requires fits { length (I.listed indices) ≤ 4611686018427387904 }
    requires passed { Pass (primitives_checks origin.now.x origin.now.y ids (V.listed vertices) draw.now.topology
        (I.listed indices)) }
    ensures drawn { HaveEnds (drawn_as ids (all_seen origin.now (moved_state origin.now.x origin.now.y (state_listed has_alpha draw.now)) draw.now.topology (V.listed vertices) (I.listed indices)))
        piece.old.rows.canvas piece.old.rows.first piece.old.rows.end piece.old.planes.now piece.new.planes.now }
    ensures rows { piece.new.rows ≡ piece.old.rows }
    ensures same { piece.new.planes.ghost_name ≡ piece.old.planes.ghost_name }
{
    let part = Part {
        state: origin.seen_state(&draw.state(has_alpha)),
        topology: draw.topology,
        vertices,
        indices,
        origin: *origin,
    };
    match ids {
        None => piece.draw(&part),
        Some(first) => piece.draw(&Ids::new(&part, first).unwrap()),
    }
}

/// Draws a draw that passes its checks, whose vertices and indices are the first of these.
fn draw_one<V: Vertices>(
    piece: &mut Piece<'_>,
    draw: &BatchDraw,
    vertices: &V,
    indices: &BatchIndices<'_>,
    origin: &Origin,
    ids: Option<u32>,
    has_alpha: bool,
)
    requires { Pass (draw_checks origin.now.x origin.now.y ids draw.now (V.listed vertices.now) (indices_given indices.now)) }
    ensures drawn { HaveEnds (drawn_as ids (map (moved origin.now.x origin.now.y) (placed_all (draw_listed has_alpha draw.now (V.listed vertices.now) (indices_given indices.now)))))
        piece.old.rows.canvas piece.old.rows.first piece.old.rows.end piece.old.planes.now piece.new.planes.now }
    ensures rows { piece.new.rows ≡ piece.old.rows }
    ensures same { piece.new.planes.ghost_name ≡ piece.old.planes.ghost_name }
{
    let own = vertices.first(draw.vertices);
    match indices {
        BatchIndices::Words(all) => {
            let indices = &all[..draw.indices];
            draw_primitives(piece, draw, own, indices, origin, ids, has_alpha)
        }
        BatchIndices::Halves(all) => {
            let indices = &all[..draw.indices];
            draw_primitives(piece, draw, own, indices, origin, ids, has_alpha)
        }
        BatchIndices::InOrder => {
            let indices = InOrder {
                count: draw.vertices,
            };
            draw_primitives(piece, draw, own, indices, origin, ids, has_alpha)
        }
    }
}

/// The draws of a batch: those of the caller, or if there are none, the one of all vertices and indices.
fn draws_or<'a>(draws: &'a [BatchDraw], whole: &'a [BatchDraw]) -> &'a [BatchDraw]
    ensures { (vertices : List BatchVertex) (indices : Option (List ℕ)) →
        whole.now ≡ whole_draw (length vertices) (count_of_indices indices) ∷ [] →
        result.now ≡ draws_of draws.now vertices indices }
{
    match draws {
        [] => whole,
        _ => draws,
    }
}

/// Draws a batch, in the colours of its vertices or by ids from the given one on.
fn draw_all<V: Vertices>(
    piece: &mut Piece<'_>,
    draws: &[BatchDraw],
    vertices: &V,
    indices: &BatchIndices<'_>,
    origin: &Origin,
    ids: Option<u32>,
    has_alpha: bool,
) -> Result<(), BatchFault>
    ensures judged { IsJudged (batch_checks origin.now.x origin.now.y ids draws.now (V.listed vertices.now)
        (indices_given indices.now)) (λ done. ⊤) result }
    ensures drawn { OnOk result (HaveEnds (drawn_as ids (triangles_seen has_alpha origin.now.x origin.now.y draws.now (V.listed vertices.now) (indices_given indices.now)))
        piece.old.rows.canvas piece.old.rows.first piece.old.rows.end piece.old.planes.now piece.new.planes.now) }
    ensures kept { OnErr result (piece.new.planes.now ≡ piece.old.planes.now) }
    ensures rows { piece.new.rows ≡ piece.old.rows }
    ensures same { piece.new.planes.ghost_name ≡ piece.old.planes.ghost_name }
{
    let whole = [BatchDraw::whole(vertices.count(), indices.count())];
    let listed = draws_or(draws, &whole);
    check_draws(listed, vertices, indices, origin, ids)?;
    let mut next_ids = ids;
    let (mut vertices_left, mut indices_left) = (*vertices, *indices);
    for draw in listed {
        draw_one(
            piece,
            draw,
            &vertices_left,
            &indices_left,
            origin,
            next_ids,
            has_alpha,
        );
        next_ids = after(next_ids, triangles_of_draw(draw, &indices_left));
        indices_left = indices_left.behind(draw.indices);
        vertices_left = vertices_left.behind(draw.vertices);
    }
    Ok(())
}

/// Draws a batch at the samples of tile rows of a canvas whose upper left pixel is `origin` on the screen: in the
/// colours of its vertices, or, where `ids` is given, each triangle in the colour of its id, counted from there on. A
/// batch without draws is one draw of all vertices and indices. Alpha is written only if the canvas has alpha.
///
/// Returns the fault of the first check that fails; then the samples are unchanged. Each draw in turn: that many
/// vertices (`TooFewVertices`) and indices (`TooFewIndices`) are left for it, each number of its state is in its range
/// (each has a cause of its own, as `BadTopology`), its indices make whole primitives (`NotWhole`), the ids of its triangles have 24 bits
/// (`TooManyIds`), each index names a vertex of the draw (`BadIndex`), each vertex that an index names is in the guard
/// band, also as it is seen from the corner of the pixel `origin` (`BadPosition`), and each quad is strictly convex
/// (`NotConvex`). At the end no vertex and no index is left over: else `LeftOver`.
pub fn draw_batch(
    piece: &mut Piece<'_>,
    draws: &[BatchDraw],
    vertices: &BatchVertices<'_>,
    indices: &BatchIndices<'_>,
    origin: &Origin,
    ids: Option<u32>,
    has_alpha: bool,
) -> Result<(), BatchFault>
    ensures judged { IsJudged (batch_checks origin.now.x origin.now.y ids draws.now (vertices_given vertices.now)
        (indices_given indices.now)) (λ done. ⊤) result }
    ensures drawn { OnOk result (HaveEnds (drawn_as ids (triangles_seen has_alpha origin.now.x origin.now.y draws.now (vertices_given vertices.now) (indices_given indices.now)))
        piece.old.rows.canvas piece.old.rows.first piece.old.rows.end piece.old.planes.now piece.new.planes.now) }
    ensures kept { OnErr result (piece.new.planes.now ≡ piece.old.planes.now) }
    ensures rows { piece.new.rows ≡ piece.old.rows }
    ensures same { piece.new.planes.ghost_name ≡ piece.old.planes.ghost_name }
{
    match vertices {
        BatchVertices::Packed(all) => draw_all(piece, draws, all, indices, origin, ids, has_alpha),
        BatchVertices::Strided(bytes, stride) => {
            let vertices = Strided::new(bytes, *stride);
            draw_all(piece, draws, &vertices, indices, origin, ids, has_alpha)
        }
    }
}
