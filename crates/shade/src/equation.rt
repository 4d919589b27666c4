ghost use Rattle.std.specs.Prelude.{◌≡◌, ◌↔◌, ◌*◌, ◌≤◌, IsTrue, pos, ◌-ℤ◌};
ghost use Rattle.shade.specs.Blend.{IsNearest};

use crate::factor::BlendFactor;
use crate::operands::{Channel, Operands};

/// How the two terms of a blend equation are combined (Direct3D 11, `D3D11_BLEND_OP`). `Min` and `Max` take the
/// channels themselves, without factors.
#[derive(Clone, Copy, Debug, PartialEq, Eq)]
pub enum BlendOperation {
    Add,
    Subtract,
    ReverseSubtract,
    Min,
    Max,
}

/// How a channel of a fragment and the stored channel are combined.
#[derive(Clone, Copy, Debug, PartialEq, Eq)]
pub struct Equation {
    /// What the fragment's channel is multiplied by.
    pub source: BlendFactor,
    /// What the stored channel is multiplied by.
    pub stored: BlendFactor,
    /// How the two are combined.
    pub operation: BlendOperation,
}

/// The number from 0 to 255 nearest to the difference of two numbers divided by 255 (the rounding is this project's
/// rule).
fn nearest(plus: u32, minus: u32) -> u8
    requires { plus ≤ 130050 }
    ensures { IsNearest (pos plus -ℤ pos minus) result }
{
    let rounded = (plus + 127).saturating_sub(minus) / 255;
    rounded.min(255) as u8
}

/// A channel times a factor.
fn product(channel: u8, factor: u8) -> u32
    ensures value { result ≡ channel * factor }
    ensures size { result ≤ 65025 }
{
    u32::from(channel) * u32::from(factor)
}

impl Equation {
    ghost use Rattle.shade.specs.Blend.{IsBlended, ReadsSourceAlpha};

    /// The channel that is stored if a fragment is blended with the stored channel.
    pub fn blended(&self, channel: Channel, operands: &Operands) -> u8
        ensures { IsBlended self.now channel operands.now result }
    {
        let source = product(operands.source, self.source.value(channel, operands));
        let stored = product(operands.stored, self.stored.value(channel, operands));
        match self.operation {
            BlendOperation::Add => nearest(source + stored, 0),
            BlendOperation::Subtract => nearest(source, stored),
            BlendOperation::ReverseSubtract => nearest(stored, source),
            BlendOperation::Min => operands.source.min(operands.stored),
            BlendOperation::Max => operands.source.max(operands.stored),
        }
    }

    /// Whether the equation, as that of red, green and blue, reads the fragment's alpha.
    #[inline(always)]
    pub fn reads_source_alpha(&self) -> bool
        ensures { IsTrue result ↔ ReadsSourceAlpha self.now }
    {
        match self.operation {
            BlendOperation::Min | BlendOperation::Max => false,
            BlendOperation::Add | BlendOperation::Subtract | BlendOperation::ReverseSubtract => {
                self.source.is_of_source_alpha() || self.stored.is_of_source_alpha()
            }
        }
    }
}
