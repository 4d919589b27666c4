//! What is drawn at the samples of a block: a triangle, or one fragment.
ghost use Rattle.grid.specs.Position.{Position};
ghost use Rattle.shade.specs.declared.sample.Shaded.{Shaded as Values};
ghost use Rattle.lanes.specs.Source.{GivesFragment, IsReadySource};
ghost use Rattle.lanes.specs.Sources.{GivesDepth, GivesColour};

use crate::mode::{Colour, Depth, needs_no_depth};
use crate::sources::{ColourSource, DepthSource};
use shade::{Merge, Placed, Shaded};

/// What is drawn.
#[derive(Clone, Copy, Debug)]
pub(crate) enum Source<'a> {
    /// A triangle, by its depth and its colour.
    Triangle(&'a Placed, &'a Depth, &'a Colour),
    /// The same at all samples.
    Fragment(&'a Shaded),
}

impl<'a> Source<'a> {
    /// How its depth is computed.
    #[inline(always)]
    pub(crate) fn depth(&self, merge: &Merge) -> DepthSource<'a>
        requires { IsReadySource self.now }
        ensures { (p : Position) (f : Values) → GivesFragment merge.now self.now p f → GivesDepth merge.now result p f.z }
    {
        match self {
            Source::Triangle(placed, depth, _) => depth.source(placed),
            Source::Fragment(shaded) => {
                if needs_no_depth(merge) {
                    DepthSource::Unused
                } else {
                    DepthSource::Flat(shaded.z)
                }
            }
        }
    }

    /// How its colour is computed.
    #[inline(always)]
    pub(crate) fn colour(&self) -> ColourSource<'a>
        requires { IsReadySource self.now }
        ensures { (m : Merge) (p : Position) (f : Values) → GivesFragment m self.now p f → GivesColour m result p f }
    {
        match self {
            Source::Triangle(placed, _, colour) => colour.source(placed),
            Source::Fragment(shaded) => {
                ColourSource::Flat([shaded.r, shaded.g, shaded.b, shaded.a])
            }
        }
    }
}
