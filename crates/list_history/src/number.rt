ghost use Rattle.std.specs.Prelude.{ℕ, ◌<◌, length, IfSome, IfNone};
ghost use Rattle.draw_list.specs.Place.{IsPlace};

use draw_list::{DrawList, TrianglePlace};

/// Returns the number in draw order of the triangle in this place. Returns `None` if the list has no such triangle.
pub fn number_of(list: &DrawList, place: TrianglePlace) -> Option<usize>
    ensures within { IfSome result (λ number. number < length list.now.triangles) }
    ensures place { IfSome result (λ number. IsPlace list.now number place) }
    ensures none { IfNone result ((number : ℕ) → number < length list.now.triangles → ¬ IsPlace list.now number place) }
{
    for number in 0..list.triangles() {
        if list.place(number) == place {
            return Some(number);
        }
    }
    None
}
