//! The indices of draws, however a caller has them.
ghost use Rattle.std.specs.Prelude.{◌≡◌, ◌<◌, ◌≤◌, length};
ghost use Rattle.batch.specs.OwnIndices.{indices_given, count_of_indices, indices_behind, own_indices};

use crate::draw::BatchDraw;

/// The indices of a batch.
#[derive(Clone, Copy, Debug)]
pub enum BatchIndices<'a> {
    /// Numbers of 32 bits.
    Words(&'a [u32]),
    /// Numbers of 16 bits.
    Halves(&'a [u16]),
    /// None: each draw has its vertices in their order.
    InOrder,
}

impl<'a> BatchIndices<'a> {
    /// How many there are in memory.
    pub(crate) fn count(&self) -> usize
        ensures { result ≡ count_of_indices (indices_given self.now) }
    {
        match self {
            BatchIndices::Words(indices) => indices.len(),
            BatchIndices::Halves(indices) => indices.len(),
            BatchIndices::InOrder => 0,
        }
    }

    /// How many are a draw's own.
    pub(crate) fn own_count(&self, draw: &BatchDraw) -> usize
        requires { draw.now.indices ≤ count_of_indices (indices_given self.now) }
        ensures { result ≡ length (own_indices draw.now (indices_given self.now)) }
    {
        match self {
            BatchIndices::InOrder => draw.vertices,
            _ => draw.indices,
        }
    }

    /// Those behind the first ones.
    pub(crate) fn behind(&self, count: usize) -> BatchIndices<'a>
        requires { count ≤ count_of_indices (indices_given self.now) }
        ensures { indices_given result ≡ indices_behind count (indices_given self.now) }
    {
        match self {
            BatchIndices::Words(indices) => BatchIndices::Words(&indices[count..]),
            BatchIndices::Halves(indices) => BatchIndices::Halves(&indices[count..]),
            BatchIndices::InOrder => BatchIndices::InOrder,
        }
    }
}

/// The indices of a draw, one after another, each of which is read when it is asked for.
pub(crate) trait Indices: Drop {
    ghost use Rattle.std.specs.Prelude.{List, ℕ, length, slice_index};

    /// The indices.
    ghost listed: { Self → List ℕ };

    /// How many there are.
    fn count(&self) -> usize
        ensures { result ≡ length (listed self.now) };

    /// The index at this place.
    fn at(&self, place: usize) -> usize
        requires { place < length (listed self.now) }
        ensures { result ≡ slice_index (listed self.now) place };
}

/// Indices of 32 bits.
impl Indices for &[u32] {
    ghost listed = { λ s. s.now };

    #[inline(always)]
    fn count(&self) -> usize {
        self.len()
    }

    #[inline(always)]
    fn at(&self, place: usize) -> usize {
        self[place] as usize
    }
}

/// Indices of 16 bits.
impl Indices for &[u16] {
    ghost listed = { λ s. s.now };

    #[inline(always)]
    fn count(&self) -> usize {
        self.len()
    }

    #[inline(always)]
    fn at(&self, place: usize) -> usize {
        usize::from(self[place])
    }
}

/// The indices of vertices in their order: of each its own.
#[derive(Drop)]
pub(crate) struct InOrder {
    /// How many there are.
    pub(crate) count: usize,
}

impl Indices for InOrder {
    ghost use Rattle.std.specs.List.{range_with_len};

    ghost listed = { λ s. range_with_len 0 s.count };

    #[inline(always)]
    fn count(&self) -> usize {
        self.count
    }

    #[inline(always)]
    fn at(&self, place: usize) -> usize {
        place
    }
}
