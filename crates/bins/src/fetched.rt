//! Triangles that are fetched together.
ghost use Rattle.std.specs.Prelude.{◌≡◌, ◌+◌, ◌-◌, ◌≤◌, ◌<◌, length, slice_get, Some, None, IfSome};
ghost use Rattle.std.specs.List.{All};
ghost use Rattle.bins.specs.Fetched.{AreFetched, IsBefore, Has};

use draw_list::{DrawList, Placed};

/// The number of triangles that are fetched together.
const TOGETHER: usize = 16;

/// Triangles whose numbers stand one after another, fetched together. They lie far from each other in memory. If
/// triangles are fetched one after another, the waiting for memory overlaps; if each is drawn before the next is
/// fetched, it does not.
#[derive(Drop)]
pub struct Fetched {
    triangles: [Placed; TOGETHER],
    /// The place of the first triangle's number.
    first: usize,
}

impl Fetched {
    /// The triangles of the first of these numbers; none if there are no numbers.
    #[inline(always)]
    pub fn of(list: &DrawList, numbers: &[u32]) -> Option<Fetched>
        requires { All (λ number. number < length list.now.triangles) numbers.now }
        ensures none { (result ≡ None) → length numbers.now ≤ 0 }
        ensures some { IfSome result (IsBefore list.now numbers.now 0) }
    {
        let number = numbers.first()?;
        let mut triangles = [list.triangle(*number as usize); TOGETHER];
        fetch(list, numbers, 0, &mut triangles);
        Some(Fetched {
            triangles,
            first: 0,
        })
    }

    /// Goes on to this place of the numbers, which is the one after the place before. Behind the last triangle that was
    /// fetched the next ones are fetched.
    #[inline(always)]
    pub fn go_on(&mut self, list: &DrawList, numbers: &[u32], place: usize)
        requires numbers { All (λ number. number < length list.now.triangles) numbers.now }
        requires place { place < length numbers.now }
        requires before { IsBefore list.now numbers.now place self.old }
        ensures has { Has list.now numbers.now place self.new }
        ensures before { IsBefore list.now numbers.now (place + 1) self.new }
    {
        if place - self.first == TOGETHER {
            self.first = place;
            fetch(list, numbers, place, &mut self.triangles);
        }
    }

    /// The triangle whose number stands at this place, to which `go_on` went.
    #[inline(always)]
    pub fn triangle(&self, place: usize) -> &Placed
        requires from { self.now.first ≤ place }
        requires below { place < self.now.first + 16 }
        ensures { slice_get self.now.triangles (place - self.now.first) ≡ Some result.now }
    {
        &self.triangles[place - self.first]
    }
}

/// Fetches the triangles of these numbers from index `first` on, as many as are fetched together, in place of those
/// that were fetched before.
fn fetch(list: &DrawList, numbers: &[u32], first: usize, triangles: &mut [Placed; TOGETHER])
    requires numbers { All (λ number. number < length list.now.triangles) numbers.now }
    requires first { first < length numbers.now }
    ensures fetched { AreFetched list.now numbers.now first triangles.new }
    ensures length { length triangles.new ≡ 16 }
{
    let count = TOGETHER.min(numbers.len() - first);
    for place in 0..count {
        triangles[place] = list.triangle(numbers[first + place] as usize);
    }
}
