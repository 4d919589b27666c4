ghost use Rattle.std.specs.Prelude.{slice_index};
ghost use Rattle.shade.specs.Depth.{Passes};
ghost use Rattle.lanes.specs.Lanes.{IsMask};

use shade::DepthTest;
use std::simd::prelude::*;

/// Which lanes of the new depths pass the test against the stored ones.
#[inline(always)]
pub(crate) fn passes_lanes(test: DepthTest, new: u16x16, old: u16x16) -> u16x16
    ensures { IsMask result (λ i. Passes test (slice_index new i) (slice_index old i)) }
{
    let all = u16x16::splat(65535);
    let none = u16x16::splat(0);
    match test {
        DepthTest::Never => none,
        DepthTest::Less => new.simd_lt(old).select(all, none),
        DepthTest::Equal => new.simd_eq(old).select(all, none),
        DepthTest::LessEqual => new.simd_le(old).select(all, none),
        DepthTest::Greater => new.simd_gt(old).select(all, none),
        DepthTest::NotEqual => new.simd_ne(old).select(all, none),
        DepthTest::GreaterEqual => new.simd_ge(old).select(all, none),
        DepthTest::Always => all,
    }
}
