ghost use Rattle.std.specs.Prelude.{◌≡◌, ◌↔◌, ℤ, ◌≤◌, ◌^◌, ◌≤ℤ◌, IsTrue};
ghost use Rattle.grid.specs.Bounds.{IsWithin};
ghost use Rattle.strokes.specs.Border as border;
ghost use Rattle.strokes.specs.Border.{Owns, IsAtMost, IsWithinRoot, IsWithinHalf};

/// Whether the side of a border on which an edge function is less owns the border, where the edge function grows in this
/// direction: the top-left rule of Direct3D 11.
pub fn owns(x: i32, y: i32) -> bool
    ensures value { result ≡ border.owns x y }
    ensures meaning { IsTrue result ↔ Owns x y }
{
    x < 0 || x == 0 && y < 0
}

/// The threshold of a straight border: an edge function is on this side if and only if it is at most the threshold. That
/// is the bound, or one less where this side does not own the border.
pub fn line_bound(bound: i64, is_owned: bool) -> i64
    requires size { IsWithin (2 ^ 60) bound }
    ensures meaning { (f : ℤ) → (f ≤ℤ result) ↔ IsAtMost bound is_owned f }
{
    if is_owned { bound } else { bound - 1 }
}

/// The threshold of a border at half the width from the line of a segment, by the square of its length: an edge function
/// is on this side if and only if it is at most the threshold. That is half the width times the length, rounded down, or
/// one less where this is exact and this side does not own the border.
pub fn offset_bound(width: u32, square: u64, is_owned: bool) -> i64
    requires width { width ≤ 2 ^ 20 }
    requires square { square ≤ 2 ^ 50 }
    ensures meaning { (f : ℤ) → (f ≤ℤ result) ↔ IsWithinHalf width square is_owned f }
{
    let whole = u128::from(width) * u128::from(width) * u128::from(square);
    let root = whole.isqrt();
    let half = (root / 2) as i64;
    if root % 2 == 0 && root * root == whole && !is_owned {
        half - 1
    } else {
        half
    }
}

/// The threshold of a circle's borders in a row of samples, by what the square of its diameter leaves of twice the
/// distance from the row: how far right or left a point of the row is from the center is on this side if and only if it is
/// at most the threshold.
pub(crate) fn root_bound(square: u64, is_owned: bool) -> i64
    requires { square ≤ 2 ^ 53 }
    ensures meaning { (f : ℤ) → (f ≤ℤ result) ↔ IsWithinRoot square is_owned f }
    ensures size { IsWithin (2 ^ 33) result }
{
    let root = square.isqrt();
    let bound = (root / 2) as i64;
    if root % 2 == 0 && root * root == square && !is_owned {
        bound - 1
    } else {
        bound
    }
}
