//! The lists of primitives of a draw: triangles, the indices of a strip, or quads.
ghost use Rattle.std.specs.Prelude.{IfSome, Some};
ghost use Rattle.list_json.specs.Denotes.{IsTriangle, IsStripIndex, IsQuad, IsArrayOf};
ghost use Rattle.fast_reader.specs.Took.{Took};

use crate::array::take_begin_array;
use crate::elements::{ElementReader, take_array};
use crate::number::{index, take_index};
use draw_list::{MOST_QUADS, MOST_STRIP_INDICES, MOST_TRIANGLES, Vertex, is_convex};
use json_tokens::Cursor;
use std::alloc::Global;

/// Takes triangles over this many vertices.
#[derive(Drop)]
struct TriangleReader {
    count: usize,
}

impl ElementReader for TriangleReader {
    type Element = [u32; 3];

    ghost levels = { 1 };

    ghost denotes = { λ s. IsTriangle s.count };

    /// Takes a triangle, by the indices of three of the vertices.
    #[inline(always)]
    fn take(&self, reader: &mut Cursor<'_>) -> Option<[u32; 3]> {
        let (first, second, third) = reader.take_three()?;
        let first = index(first, self.count)?;
        let second = index(second, self.count)?;
        let third = index(third, self.count)?;
        Some([first, second, third])
    }
}

/// Takes the triangles of a draw of `count` vertices.
pub(crate) fn take_triangles(
    alloc: Global,
    reader: &mut Cursor<'_>,
    count: usize,
) -> Option<Vec<[u32; 3]>>
    ensures { IfSome result (λ found. Took 2 (λ d xs. IsArrayOf 65536 (IsTriangle count) (Some d) xs)
        reader.old found.items reader.new) }
{
    take_array(alloc, reader, MOST_TRIANGLES, &TriangleReader { count })
}

/// Takes the indices of a strip over this many vertices.
#[derive(Drop)]
struct StripReader {
    count: usize,
}

impl ElementReader for StripReader {
    type Element = u32;

    ghost levels = { 0 };

    ghost denotes = { λ s. IsStripIndex s.count };

    /// Takes the index of one of the vertices.
    #[inline(always)]
    fn take(&self, reader: &mut Cursor<'_>) -> Option<u32> {
        take_index(reader, self.count)
    }
}

/// Takes the strip of a draw of `count` vertices.
pub(crate) fn take_strip(alloc: Global, reader: &mut Cursor<'_>, count: usize) -> Option<Vec<u32>>
    ensures { IfSome result (λ found. Took 1 (λ d xs. IsArrayOf 65538 (IsStripIndex count) (Some d) xs)
        reader.old found.items reader.new) }
{
    take_array(alloc, reader, MOST_STRIP_INDICES, &StripReader { count })
}

/// Takes quads over these vertices.
#[derive(Drop)]
struct QuadReader<'a> {
    vertices: &'a [Vertex],
}

impl ElementReader for QuadReader<'_> {
    type Element = [u32; 4];

    ghost levels = { 1 };

    ghost denotes = { λ s. IsQuad s.vertices.now };

    /// Takes a strictly convex quad, by the indices of four of the vertices.
    #[inline(always)]
    fn take(&self, reader: &mut Cursor<'_>) -> Option<[u32; 4]> {
        if !take_begin_array(reader) {
            return None;
        }
        let count = self.vertices.len();
        let first = take_index(reader, count)?;
        let second = take_index(reader, count)?;
        let third = take_index(reader, count)?;
        let fourth = take_index(reader, count)?;
        if !reader.take_end_array() {
            return None;
        }
        let quad = [first, second, third, fourth];
        if !is_convex(quad, self.vertices) {
            return None;
        }
        Some(quad)
    }
}

/// Takes the quads of a draw with these vertices.
pub(crate) fn take_quads(
    alloc: Global,
    reader: &mut Cursor<'_>,
    vertices: &[Vertex],
) -> Option<Vec<[u32; 4]>>
    ensures { IfSome result (λ found. Took 2 (λ d xs. IsArrayOf 32768 (IsQuad vertices.now) (Some d) xs)
        reader.old found.items reader.new) }
{
    take_array(alloc, reader, MOST_QUADS, &QuadReader { vertices })
}
