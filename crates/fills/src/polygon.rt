//! A polygon as it is drawn.
ghost use Rattle.std.specs.Prelude.{◌≡◌};
ghost use Rattle.fills.specs.Parts.{factor_by as blend_factor, equation_by as blend_equation};

use canvas::Origin;
use lanes::Fragment;
use polygons::{Rings, Rule};
use shade::{BlendFactor, Equation, Shaded, State};

/// A polygon as it is drawn: its rings, its rule, one colour and one depth for all of its samples, and its draw's
/// state.
#[derive(Clone, Copy, Debug)]
pub(crate) struct Polygon<'a> {
    /// Its rings.
    pub rings: Rings<'a>,
    /// Which points are inside of them.
    pub rule: Rule,
    /// Red, green, blue and alpha.
    pub rgba: [u8; 4],
    /// The depth, from 0 to 65535.
    pub z: u16,
    /// How it is drawn. A polygon may run either way round: `cull` is not looked at.
    pub state: State,
}

impl Polygon<'_> {
    ghost use Rattle.fills.specs.Parts.{seen_fragment};

    /// The polygon's fragment, made ready to be drawn in its state as seen from the origin.
    pub(crate) fn fragment(&self, origin: &Origin) -> Fragment
        ensures { result ≡ seen_fragment self.now origin.now }
    {
        let [r, g, b, a] = self.rgba;
        let mut state = origin.seen_state(&self.state);
        state.merge.blend.colour = equation_by(a, state.merge.blend.colour);
        Fragment::new(
            Shaded {
                r,
                g,
                b,
                a,
                z: self.z,
            },
            state,
        )
    }
}

/// A factor of colours with this alpha, without alpha if it is opaque.
fn factor_by(alpha: u8, factor: BlendFactor) -> BlendFactor
    ensures { result ≡ blend_factor alpha factor }
{
    match factor {
        BlendFactor::SourceAlpha if alpha == 255 => BlendFactor::One,
        BlendFactor::InverseSourceAlpha if alpha == 255 => BlendFactor::Zero,
        _ => factor,
    }
}

/// The equation of colours with this alpha. An opaque colour that is laid over others takes their place, which is drawn
/// in less time.
fn equation_by(alpha: u8, equation: Equation) -> Equation
    ensures { result ≡ blend_equation alpha equation }
{
    Equation {
        source: factor_by(alpha, equation.source),
        stored: factor_by(alpha, equation.stored),
        operation: equation.operation,
    }
}
