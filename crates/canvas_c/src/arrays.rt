//! A batch in the caller's memory.
ghost use Rattle.std.specs.Prelude.{◌≡◌, ◌↔◌, length, IsTrue, IsSome, IfSome};
ghost use Rattle.batch.specs.OwnIndices.{indices_given};
ghost use Rattle.batch.specs.Vertices.{vertices_given};
ghost use Rattle.c_abi.specs.Sizes.{IsOwnSize};
ghost use Rattle.canvas_c.specs.Arrays.{HasIndexSize, HasVertexStride, indices_of, vertices_of};

use batch::{BatchDraw, BatchIndices, BatchVertex, BatchVertices, Stride};
use c_abi::is_own_size;

/// The bytes of the caller's struct, and of the elements of its arrays.
const BATCH_SIZE: u32 = 64;

const VERTEX_SIZE: u32 = size_of::<BatchVertex>() as u32;

const INDEX_SIZE: u32 = size_of::<u32>() as u32;

const SHORT_INDEX_SIZE: u32 = size_of::<u16>() as u32;

/// Draws with their vertices and indices, as a call from C takes them, laid out as in C: of each array a pointer and
/// then a count.
#[repr(C)]
#[derive(Clone, Copy)]
pub struct Batch<'a> {
    /// The bytes of this struct, as the caller has it, or 0.
    pub struct_size: u32,
    /// The bytes from a vertex to the next, or 0.
    pub vertex_stride: u32,
    /// The bytes of an index: 2, 4, or 0 for 4.
    pub index_size: u32,
    /// 0 if there are indices; else each draw has its vertices in their order.
    pub in_order: u32,
    /// The draws in their order. If there are none, all vertices and indices are one draw.
    pub draws: &'a [BatchDraw],
    /// The vertices of all draws, one draw's after another's, if their stride is 0 or 16.
    pub vertices: &'a [BatchVertex],
    /// The memory in which they lie, if they have another stride.
    pub strided: &'a [u8],
    /// How many vertices the caller says there are.
    pub vertex_total: usize,
    /// The indices of all draws, one draw's after another's, if they have 4 bytes.
    pub indices: &'a [u32],
    /// The same, if they have 2 bytes.
    pub short_indices: &'a [u16],
}

impl Batch<'_> {
    /// Whether the struct has the size that this library knows.
    pub(crate) fn has_size(&self) -> bool
        ensures { IsTrue result ↔ IsOwnSize self.now.struct_size 64 }
    {
        is_own_size(self.struct_size, BATCH_SIZE)
    }

    /// The vertices. Returns `None` if there is no such stride.
    pub(crate) fn given_vertices(&self) -> Option<BatchVertices<'_>>
        ensures some { IsSome result ↔ HasVertexStride self.now }
        ensures value { IfSome result (λ vertices. vertices_given vertices ≡ vertices_of self.now) }
    {
        if is_own_size(self.vertex_stride, VERTEX_SIZE) {
            return Some(BatchVertices::Packed(self.vertices));
        }
        let stride = Stride::new(self.vertex_stride)?;
        Some(BatchVertices::Strided(self.strided, stride))
    }

    /// Whether these vertices are as many as the caller says there are.
    pub(crate) fn has_all(&self, vertices: &BatchVertices<'_>) -> bool
        ensures { IsTrue result ↔ (length (vertices_given vertices.now) ≡ self.now.vertex_total) }
    {
        vertices.count() == self.vertex_total
    }

    /// Whether the indices have a size that this library knows.
    pub(crate) fn has_index_size(&self) -> bool
        ensures { IsTrue result ↔ HasIndexSize self.now }
    {
        self.index_size == SHORT_INDEX_SIZE || is_own_size(self.index_size, INDEX_SIZE)
    }

    /// The indices.
    pub(crate) fn given_indices(&self) -> BatchIndices<'_>
        ensures { indices_given result ≡ indices_of self.now }
    {
        if self.in_order != 0 {
            return BatchIndices::InOrder;
        }
        if self.index_size == SHORT_INDEX_SIZE {
            return BatchIndices::Halves(self.short_indices);
        }
        BatchIndices::Words(self.indices)
    }
}
