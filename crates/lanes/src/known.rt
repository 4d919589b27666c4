//! A merge made again, so that its colour equation is known if the code is inlined.
ghost use Rattle.std.specs.Prelude.{◌≡◌};
ghost use Rattle.shade.specs.Presets.{IsKnown};
ghost use Rattle.shade.specs.declared.known.KnownEquation.TheVariants.{Replace};
ghost use Rattle.lanes.specs.Mode.{IsAlphaKnown, WritesEachColour, WritesColours, WritesNoColour, known_of};

use shade::{Blend, Equation, KnownEquation, Merge};

/// The equation made again, so that its parts are known if the code is inlined.
#[inline(always)]
fn again(known: KnownEquation, e: &Equation) -> Equation
    requires { IsKnown known e.now }
    ensures { result ≡ e.now }
{
    match known {
        KnownEquation::Replace => Equation::REPLACE,
        KnownEquation::Over => Equation::OVER,
        KnownEquation::Other => *e,
    }
}

/// The merge made again by the same equation of alpha and the same write mask, so that these and its equation of colours
/// are known if the code is inlined.
#[inline(always)]
fn remade(
    known: KnownEquation,
    m: &Merge,
    alpha: Equation,
    write: [bool; 3],
    write_alpha: bool,
) -> Merge
    requires known { IsKnown known m.now.blend.colour }
    requires alpha { alpha ≡ m.now.blend.alpha }
    requires write { write ≡ m.now.write }
    requires write_alpha { write_alpha ≡ m.now.blend.write_alpha }
    ensures { result ≡ m.now }
{
    Merge {
        test: m.test,
        depth_write: m.depth_write,
        write,
        blend: Blend {
            colour: again(known, &m.blend.colour),
            alpha,
            constant: m.blend.constant,
            write_alpha,
        },
    }
}

/// The merge made again, so that its equation is known if the code is inlined.
#[inline(always)]
pub(crate) fn with_known(known: KnownEquation, m: &Merge) -> Merge
    requires { IsKnown known m.now.blend.colour }
    ensures { result ≡ m.now }
{
    remade(known, m, m.blend.alpha, m.write, m.blend.write_alpha)
}

/// The equation of alpha made again, so that it is known if alpha is written and the code is inlined.
#[inline(always)]
fn alpha_again<const OVER: bool, const ALPHA: bool>(e: &Equation) -> Equation
    requires { IsAlphaKnown OVER ALPHA e.now }
    ensures { result ≡ e.now }
{
    if !ALPHA {
        *e
    } else if OVER {
        Equation::PREMULTIPLIED_OVER
    } else {
        Equation::REPLACE
    }
}

/// A merge that writes red, green and blue by an equation of draw lists, made again so that its equations and what it
/// writes are known if the code is inlined. With `ALPHA` it writes alpha.
#[inline(always)]
pub(crate) fn whole<const OVER: bool, const ALPHA: bool>(merge: &Merge) -> Merge
    requires known { IsKnown (known_of OVER) merge.now.blend.colour }
    requires all { WritesColours OVER ALPHA merge.now }
    ensures { result ≡ merge.now }
{
    let known = if OVER {
        KnownEquation::Over
    } else {
        KnownEquation::Replace
    };
    let alpha = alpha_again::<OVER, ALPHA>(&merge.blend.alpha);
    remade(known, merge, alpha, [true; 3], ALPHA)
}

/// A merge that writes red, green and blue, and alpha with `ALPHA`, made again so that this is known if the code is
/// inlined.
#[inline(always)]
pub(crate) fn writing_all<const ALPHA: bool>(merge: &Merge) -> Merge
    requires colours { WritesEachColour merge.now }
    requires alpha { merge.now.blend.write_alpha ≡ ALPHA }
    ensures { result ≡ merge.now }
{
    let equation = merge.blend.alpha;
    remade(KnownEquation::Other, merge, equation, [true; 3], ALPHA)
}

/// A merge that writes nothing but depths, by the equation of `none`, made again so that this is known if the code is
/// inlined.
#[inline(always)]
pub(crate) fn writing_no_colour(merge: &Merge) -> Merge
    requires known { IsKnown Replace merge.now.blend.colour }
    requires none { WritesNoColour merge.now }
    ensures { result ≡ merge.now }
{
    remade(
        KnownEquation::Replace,
        merge,
        merge.blend.alpha,
        [false; 3],
        false,
    )
}
