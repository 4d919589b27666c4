//! Where triangles come from.
ghost use Rattle.std.specs.Prelude.{◌≡◌, ◌+◌, ◌<◌, ◌≤◌, length, take, drop};

use crate::Placed;

/// Triangles in draw order, each of which is made when it is asked for.
pub trait Triangles {
    ghost use Rattle.std.specs.Prelude.{List, slice_get, Some as Just};
    ghost use Rattle.shade.specs.declared.placed.Placed.{Placed};

    /// The triangles in draw order.
    ghost listed: { Self → List Placed };

    /// How many there are.
    fn count(&self) -> usize
        ensures { result ≡ length (listed self.now) };

    /// The triangle of this number. It is the same whenever it is asked for.
    fn triangle(&self, number: usize) -> Placed
        requires { number < length (listed self.now) }
        ensures { slice_get (listed self.now) number ≡ Just result };
}

/// Triangles that stand in a slice.
#[derive(Drop)]
pub struct Stored<'a> {
    /// The triangles in draw order.
    pub triangles: &'a [Placed],
}

impl Triangles for Stored<'_> {
    ghost listed = { λ s. s.triangles.now };

    #[inline(always)]
    fn count(&self) -> usize {
        self.triangles.len()
    }

    #[inline(always)]
    fn triangle(&self, number: usize) -> Placed {
        self.triangles[number]
    }
}

/// Some of the triangles of a source, one after another.
#[derive(Drop)]
pub struct Chunk<'a, T: Triangles> {
    /// The source.
    pub source: &'a T,
    /// The number of the first of them in the source.
    pub first: usize,
    /// How many they are.
    pub count: usize,
    pub ghost within: { first + count ≤ length (T.listed source.now) },
    pub ghost fits: { first + count < 18446744073709551616 },
}

impl<T: Triangles> Triangles for Chunk<'_, T> {
    ghost listed = { λ s. take s.count (drop s.first (T.listed s.source.now)) };

    #[inline(always)]
    fn count(&self) -> usize {
        self.count
    }

    #[inline(always)]
    fn triangle(&self, number: usize) -> Placed {
        self.source.triangle(self.first + number)
    }
}
