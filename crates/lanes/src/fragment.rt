//! One colour and one depth for many samples.
ghost use Rattle.std.specs.Prelude.{◌≡◌};

use crate::mode::DrawMode;
use shade::{Shaded, State};
use std::marker::Model;

/// One colour and one depth for all samples, made ready to be drawn: the mode that suits it is found once. Contracts see
/// the colour, the depth and the state.
#[derive(Debug, Drop)]
pub struct Fragment {
    pub(crate) shaded: Shaded,
    pub(crate) state: State,
    pub(crate) mode: DrawMode,
}

impl Model for Fragment {
    ghost use Rattle.lanes.specs.Fragment.{FlatFragment};
    ghost use Rattle.lanes.specs.Mode.{IsMergeMode};

    ghost Value = { FlatFragment };

    ghost view = { λ f. record { shaded = f.shaded; state = f.state } };

    ghost invariant = { λ f. IsMergeMode f.state.merge f.mode };
}

impl Fragment {
    /// This colour and this depth, drawn in this state.
    pub fn new(shaded: Shaded, state: State) -> Fragment
        ensures { result ≡ record { shaded = shaded; state = state } }
    {
        Fragment {
            shaded,
            state,
            mode: DrawMode::of(&state.merge),
        }
    }

    /// The colour and the depth.
    #[inline(always)]
    pub fn shaded(&self) -> Shaded
        ensures { result ≡ self.now.shaded }
    {
        self.shaded
    }

    /// How it is drawn.
    #[inline(always)]
    pub fn state(&self) -> &State
        ensures { result.now ≡ self.now.state }
    {
        &self.state
    }
}
