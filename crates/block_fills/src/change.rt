//! How a fragment changes samples.
ghost use Rattle.std.specs.Prelude.{◌≡◌, IsTrue};
ghost use Rattle.block_fills.specs.declared.change.Change.TheVariants.{Replaces as AsReplaces, BlendsOver as AsBlendsOver};
ghost use Rattle.block_fills.specs.Changes.{BlendsAlone, ReplacesAlone};

use canvas::{replaces_colours, writes_beside_colours};
use grid::SampleCount;
use shade::{DepthTest, Equation, Merge, State};

/// How a fragment changes the samples that take it.
#[derive(Clone, Copy, Debug, PartialEq, Eq)]
pub(crate) enum Change {
    /// It gives them its colour, and changes neither depth nor alpha.
    Replaces,
    /// It blends its colour over theirs by its alpha, and changes neither depth nor alpha.
    BlendsOver,
    /// In any way.
    Merges,
}

/// Whether a fragment with this merge blends its colour over that of each sample, and changes neither depth nor alpha.
fn blends_alone(merge: &Merge) -> bool
    ensures { IsTrue result → BlendsAlone merge.now }
{
    let [red, green, blue] = merge.write;
    red && green
        && blue
        && merge.test == DepthTest::Always
        && merge.blend.colour == Equation::OVER
        && !writes_beside_colours(merge)
}

impl Change {
    /// How a fragment in this state changes the samples that take it.
    pub(crate) fn of(state: &State, count: SampleCount) -> Change
        ensures replaces { result ≡ AsReplaces → ReplacesAlone state.now count }
        ensures blends { result ≡ AsBlendsOver → BlendsAlone state.now.merge }
    {
        if replaces_colours(state, count) && !writes_beside_colours(&state.merge) {
            Change::Replaces
        } else if blends_alone(&state.merge) {
            Change::BlendsOver
        } else {
            Change::Merges
        }
    }
}
