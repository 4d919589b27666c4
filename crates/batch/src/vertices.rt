//! The vertices of draws, however a caller has them.

use crate::stride::Stride;
use crate::strided::Strided;
use crate::vertex::BatchVertex;

/// The vertices of a batch.
#[derive(Clone, Copy, Debug)]
pub enum BatchVertices<'a> {
    /// One at the end of another.
    Packed(&'a [BatchVertex]),
    /// Each in the 16 bytes at its index times the stride, laid out as in C.
    Strided(&'a [u8], Stride),
}

impl BatchVertices<'_> {
    ghost use Rattle.std.specs.Prelude.{◌≡◌, length};
    ghost use Rattle.batch.specs.Vertices.{vertices_given};

    /// How many vertices lie in the caller's memory.
    pub fn count(&self) -> usize
        ensures { result ≡ length (vertices_given self.now) }
    {
        match self {
            BatchVertices::Packed(vertices) => vertices.len(),
            BatchVertices::Strided(bytes, stride) => Strided::new(bytes, *stride).count(),
        }
    }
}

/// The vertices of draws, one after another, each of which is read when it is asked for.
pub(crate) trait Vertices: Copy {
    ghost use Rattle.std.specs.Prelude.{◌≡◌, ◌<◌, ◌≤◌, List, length, take, drop};
    ghost use Rattle.batch.specs.declared.vertex.BatchVertex.{BatchVertex};
    ghost use Rattle.batch.specs.Seen.{vertex_at};

    /// The vertices.
    ghost listed: { Self → List BatchVertex };

    /// How many there are.
    fn count(&self) -> usize
        ensures { result ≡ length (listed self.now) };

    /// The vertex of this index.
    fn at(&self, index: usize) -> BatchVertex
        requires { index < length (listed self.now) }
        ensures { result ≡ vertex_at (listed self.now) index };

    /// The first ones.
    fn first(&self, count: usize) -> Self
        requires { count ≤ length (listed self.now) }
        ensures value { listed result ≡ take count (listed self.now) }
        ensures few { count ≤ 4611686018427387904 };

    /// Those behind the first ones.
    fn behind(&self, count: usize) -> Self
        requires { count ≤ length (listed self.now) }
        ensures { listed result ≡ drop count (listed self.now) };
}

/// Vertices one at the end of another.
impl Vertices for &[BatchVertex] {
    ghost listed = { λ s. s.now };

    #[inline(always)]
    fn count(&self) -> usize {
        self.len()
    }

    #[inline(always)]
    fn at(&self, index: usize) -> BatchVertex {
        self[index]
    }

    #[inline(always)]
    fn first(&self, count: usize) -> Self {
        &self[..count]
    }

    #[inline(always)]
    fn behind(&self, count: usize) -> Self {
        &self[count..]
    }
}
