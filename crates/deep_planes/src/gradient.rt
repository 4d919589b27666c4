ghost use Rattle.std.specs.Prelude.{◌≡◌, ◌<◌, ◌≤◌, ◌*◌, ◌^◌, ◌↔◌, IsTrue};
ghost use Rattle.std.specs.Int.RustNames.{unsigned_abs};
ghost use Rattle.gradients.specs.Reciprocal.{IsQuotientBelow, IsGradient};

/// Whether `number` by the area is less than 2^31, so that it has a gradient with 32 fractional bits.
pub(crate) fn is_level(number: i64, area: u64) -> bool
    ensures { IsTrue result ↔ unsigned_abs number < area * 2 ^ 31 }
{
    number.unsigned_abs() >> 31 < area
}

/// A number that is not steep by the area, with 32 fractional bits, rounded down.
fn quotient(number: u64, area: u64) -> u64
    requires { number < area * 2 ^ 31 }
    ensures below { IsQuotientBelow 32 area number result }
    ensures small { result < 2 ^ 63 }
{
    ((u128::from(number) << 32) / u128::from(area)) as u64
}

/// The gradient of a number that is not steep: the number by the area with 32 fractional bits.
pub(crate) fn gradient(number: i64, area: u64) -> i64
    requires { unsigned_abs number < area * 2 ^ 31 }
    ensures { IsGradient 32 area number result }
{
    let size = quotient(number.unsigned_abs(), area) as i64;
    if number < 0 { -size } else { size }
}
