ghost use Rattle.std.specs.Prelude.{◌≡◌};
ghost use Rattle.shade.specs.Presets.{AreAlike, IsKnown, replace, over};

use crate::equation::Equation;

/// Which of the two equations of draw lists a colour equation is: they have code of their own.
#[derive(Clone, Copy, Debug, PartialEq, Eq)]
pub enum KnownEquation {
    Replace,
    Over,
    /// Neither of them.
    Other,
}

impl KnownEquation {
    /// The known equation that is this one.
    #[inline(always)]
    pub fn of(e: &Equation) -> KnownEquation
        ensures known { IsKnown result e.now }
        ensures other { result ≡ KnownEquation.Other → (¬ AreAlike e.now replace) × (¬ AreAlike e.now over) }
    {
        if *e == Equation::REPLACE {
            KnownEquation::Replace
        } else if *e == Equation::OVER {
            KnownEquation::Over
        } else {
            KnownEquation::Other
        }
    }
}
