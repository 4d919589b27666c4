ghost use Rattle.std.specs.Prelude.{◌≡◌, ◌↔◌, ◌+◌, ℕ, List, [], IsTrue, Some, slice_get, take};
ghost use Rattle.grid.specs.declared.sample_count.SampleCount.{SampleCount};
ghost use Rattle.shade.specs.Placed.{Draws};
ghost use Rattle.shade.specs.declared.placed.Placed.{Placed};
ghost use Rattle.shade.specs.declared.sample.Sample.{Sample};
ghost use Rattle.history.specs.Changed.{IsFollowed};

use crate::sample_place::SamplePlace;
use shade::{Placed, Sample};

/// A sample that is followed through triangles in draw order, and what one of them did to it: the triangle that is
/// asked for.
#[derive(Clone, Copy, Debug, PartialEq, Eq)]
pub struct Followed {
    /// What the sample stores after the triangles so far.
    pub stored: Sample,
    /// Whether the triangle that is asked for changed the sample.
    pub changed: bool,
    /// Whether the sample still shows the triangle that is asked for: it is the last that changed the sample.
    pub shown: bool,
}

impl Followed {
    /// A sample that stores `start` before all triangles.
    pub fn new(start: Sample) -> Followed
        ensures { (n : ℕ) (count : SampleCount) (i j s : ℕ) → IsFollowed [] n count i j s start result }
    {
        Followed {
            stored: start,
            changed: false,
            shown: false,
        }
    }

    /// The sample in this place after the next triangle, with `is_asked` if that is the one asked for.
    pub fn after(self, triangle: &Placed, place: SamplePlace, is_asked: bool) -> Followed
        ensures { (ts : List Placed) (k n : ℕ) (start : Sample) → slice_get ts k ≡ Some triangle.now → (IsTrue is_asked ↔ (k ≡ n))
            → IsFollowed (take k ts) n place.count place.px place.py place.s start self
            → IsFollowed (take (k + 1) ts) n place.count place.px place.py place.s start result }
    {
        let stored = drawn(triangle, place, self.stored);
        if is_same(stored, self.stored) {
            return self;
        }
        if is_asked {
            return Followed {
                stored,
                changed: true,
                shown: true,
            };
        }
        Followed {
            stored,
            changed: self.changed,
            shown: false,
        }
    }
}

/// Whether two samples store the same colour and depth.
fn is_same(sample: Sample, other: Sample) -> bool
    ensures { IsTrue result ↔ (sample ≡ other) }
{
    sample == other
}

/// What the triangle makes of the sample in this place, which stores `stored`.
fn drawn(triangle: &Placed, place: SamplePlace, stored: Sample) -> Sample
    ensures { Draws triangle.now place.count place.px place.py place.s stored result }
{
    if triangle.meets(place.count, place.px, place.py, place.s) {
        triangle.drawn_at(place.point(), stored)
    } else {
        stored
    }
}

/// Follows the sample in this place, which stores `start` before the triangles, through all of them, and says what the
/// triangle of this number did to it.
pub fn follow(triangles: &[Placed], number: usize, place: SamplePlace, start: Sample) -> Followed
    ensures { IsFollowed triangles.now number place.count place.px place.py place.s start result }
{
    let mut followed = Followed::new(start);
    for k in 0..triangles.len() {
        followed = followed.after(&triangles[k], place, k == number);
    }
    followed
}
