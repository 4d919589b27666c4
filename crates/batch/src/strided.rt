//! Vertices with other bytes behind each.
ghost use Rattle.std.specs.Prelude.{ℕ, ◌+◌, ◌*◌, ◌<◌, ◌≤◌, length};

use crate::stride::Stride;
use crate::vertex::BatchVertex;
use crate::vertices::Vertices;

/// The bytes of a vertex.
const VERTEX_BYTES: usize = size_of::<BatchVertex>();

/// Some of the vertices that lie in memory one every `stride` bytes.
#[derive(Clone, Copy)]
pub(crate) struct Strided<'a> {
    bytes: &'a [u8],
    stride: usize,
    /// The index of the first one in the memory.
    begin: usize,
    count: usize,
    ghost few: { begin + count ≤ 4611686018427387904 },
    ghost inside: { (k : ℕ) → k < begin + count → k * stride + 16 ≤ length bytes.now },
}

impl<'a> Strided<'a> {
    ghost use Rattle.std.specs.Prelude.{◌≡◌};
    ghost use Rattle.batch.specs.Strides.{strided_vertices};

    /// The vertices that lie in these bytes.
    pub(crate) fn new(bytes: &'a [u8], stride: Stride) -> Strided<'a>
        ensures { ⟦<Strided<'a> as Vertices>⟧.listed result ≡ strided_vertices stride.bytes bytes.now }
    {
        let stride = stride.bytes;
        Strided {
            bytes,
            stride,
            begin: 0,
            count: (bytes.len() + stride - VERTEX_BYTES) / stride,
        }
    }
}

impl Vertices for Strided<'_> {
    ghost use Rattle.batch.specs.Strides.{vertices_from};

    ghost listed = { λ s. vertices_from s.stride s.bytes.now s.begin s.count };

    #[inline(always)]
    fn count(&self) -> usize {
        self.count
    }

    #[inline(always)]
    fn at(&self, index: usize) -> BatchVertex {
        let at = (self.begin + index) * self.stride;
        BatchVertex::of_bytes(&self.bytes[at..at + VERTEX_BYTES])
    }

    #[inline(always)]
    fn first(&self, count: usize) -> Self {
        Strided {
            bytes: self.bytes,
            stride: self.stride,
            begin: self.begin,
            count,
        }
    }

    #[inline(always)]
    fn behind(&self, count: usize) -> Self {
        Strided {
            bytes: self.bytes,
            stride: self.stride,
            begin: self.begin + count,
            count: self.count - count,
        }
    }
}
