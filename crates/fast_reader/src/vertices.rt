ghost use Rattle.std.specs.Prelude.{IfSome, Some};
ghost use Rattle.list_json.specs.Denotes.{IsVertex, IsArrayOf};
ghost use Rattle.fast_reader.specs.Took.{Took};

use crate::elements::{ElementReader, take_array};
use crate::number::{channel, coordinate, depth};
use draw_list::{MOST_VERTICES, Vertex};
use grid::Point;
use json_tokens::Cursor;
use std::alloc::Global;

/// Takes vertices.
#[derive(Drop)]
struct VertexReader;

impl ElementReader for VertexReader {
    type Element = Vertex;

    ghost levels = { 1 };

    ghost denotes = { λ s. IsVertex };

    /// Takes a vertex, written as [x, y, z, red, green, blue, alpha].
    #[inline(always)]
    fn take(&self, reader: &mut Cursor<'_>) -> Option<Vertex> {
        let (x, y, z, red, green, blue, alpha) = reader.take_seven()?;
        let x = coordinate(x)?;
        let y = coordinate(y)?;
        let at = Point::new(x, y)?;
        let z = depth(z)?;
        let red = channel(red)?;
        let green = channel(green)?;
        let blue = channel(blue)?;
        let alpha = channel(alpha)?;
        Some(Vertex {
            at,
            z,
            rgba: [red, green, blue, alpha],
        })
    }
}

/// Takes the vertices of a draw.
pub(crate) fn take_vertices(alloc: Global, reader: &mut Cursor<'_>) -> Option<Vec<Vertex>>
    ensures { IfSome result (λ found. Took 2 (λ d xs. IsArrayOf 65536 IsVertex (Some d) xs)
        reader.old found.items reader.new) }
{
    take_array(alloc, reader, MOST_VERTICES, &VertexReader)
}
