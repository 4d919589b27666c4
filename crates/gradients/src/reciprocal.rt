ghost use Rattle.std.specs.Prelude.{◌≡◌, ◌⊎◌, ◌≤◌, ◌<◌, ◌+◌, ◌*◌, ◌-◌, ◌^◌, ◌↔◌, IsTrue};
ghost use Rattle.std.specs.Int.RustNames.{unsigned_abs};
ghost use Rattle.gradients.specs.Reciprocal.{IsReciprocal, IsQuotientBelow, IsGradient, IsExactGradient};

/// A number by an area in fixed point, off by less than two units of the last bit.
#[derive(Clone, Copy, Debug)]
pub(crate) struct Gradient {
    pub(crate) value: i64,
    /// Whether it is known to have no error.
    pub(crate) is_exact: bool,
}

/// A doubled area with its reciprocal: `value` by 2 to the power of `127 - shift`.
#[derive(Clone, Copy, Debug)]
pub struct Reciprocal {
    /// The doubled area.
    pub area: u64,
    /// How far the area is shifted, so that it has exactly 64 bits.
    shift: u32,
    /// 2^127 - 1 by the shifted area, rounded down.
    value: u64,
    pub ghost exact: { IsReciprocal area shift value },
    pub ghost small: { area ≤ 2 ^ 48 },
}

impl Reciprocal {
    /// The reciprocal of an area, by one division.
    pub fn of(area: u64) -> Reciprocal
        requires some { 0 < area }
        requires bound { area ≤ 2 ^ 48 }
        ensures { result.area ≡ area }
    {
        let shift = area.leading_zeros();
        let divisor = area << shift;
        let value = (u128::MAX >> 1) / divisor as u128;
        Reciprocal {
            area,
            shift,
            value: value as u64,
        }
    }

    /// Whether `number` by the area is less than 2^(63 - bits), so that it has a gradient.
    pub(crate) fn is_level(self, number: i64, bits: u32) -> bool
        requires low { 48 ≤ bits }
        requires high { bits ≤ 56 }
        ensures { IsTrue result ↔ unsigned_abs number < self.area * 2 ^ (63 - bits) }
    {
        number.unsigned_abs() < self.area << (63 - bits)
    }

    /// A number that is not steep, by the area, with `bits` fractional bits: less than two units of the last bit below.
    /// The number is shifted first, so that the upper half of one product is the quotient.
    #[inline(always)]
    fn quotient(self, number: u64, bits: u32) -> u64
        requires low { 48 ≤ bits }
        requires high { bits ≤ 56 }
        requires level { number < self.area * 2 ^ (63 - bits) }
        ensures { IsQuotientBelow bits self.area number result }
    {
        let shifted = number << (self.shift + bits - 63);
        ((shifted as u128 * self.value as u128) >> 64) as u64
    }

    /// What a quotient leaves of a number, in units of the quotient's last bit.
    #[inline(always)]
    fn rest(self, number: u64, quotient: u64, bits: u32) -> u64
        requires bits { bits ≤ 56 }
        requires below { IsQuotientBelow bits self.area number quotient }
        ensures { result + quotient * self.area ≡ number * 2 ^ bits }
    {
        (number << bits).wrapping_sub(quotient.wrapping_mul(self.area))
    }

    /// The quotient of a number that is not steep, and whether it has no error: it has none if it is found to be one
    /// unit too low.
    #[inline(always)]
    fn settled(self, number: u64, bits: u32) -> (u64, bool)
        requires low { 48 ≤ bits }
        requires high { bits ≤ 56 }
        requires level { number < self.area * 2 ^ (63 - bits) }
        ensures below { IsQuotientBelow bits self.area number result.0 }
        ensures exact { IsTrue result.1 → result.0 * self.area ≡ number * 2 ^ bits }
        ensures small { result.0 < 2 ^ 63 }
    {
        let quotient = self.quotient(number, bits);
        let rest = self.rest(number, quotient, bits);
        if rest == self.area {
            (quotient + 1, true)
        } else {
            (quotient, rest == 0)
        }
    }

    /// The gradient of a number that is not steep.
    #[inline(always)]
    pub(crate) fn gradient(self, number: i64, bits: u32) -> Gradient
        requires low { 48 ≤ bits }
        requires high { bits ≤ 56 }
        requires level { unsigned_abs number < self.area * 2 ^ (63 - bits) }
        ensures value { IsGradient bits self.area number result.value }
        ensures exact { IsTrue result.is_exact → IsExactGradient bits self.area number result.value }
    {
        let (quotient, is_exact) = self.settled(number.unsigned_abs(), bits);
        let size = quotient as i64;
        Gradient {
            value: if number < 0 { -size } else { size },
            is_exact,
        }
    }

    /// The exponent of a power of two that by the area is more than six units of the last of `fraction` fractional bits
    /// of a value.
    #[inline(always)]
    pub(crate) fn unit_bits(self, fraction: u32) -> u32
        requires { (fraction ≡ 16) ⊎ (fraction ≡ 24) }
        ensures few { 6 * self.area < 2 ^ result * 2 ^ fraction }
        ensures small { result < 64 }
    {
        (67 - fraction).saturating_sub(self.shift)
    }
}
