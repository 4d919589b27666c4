ghost use Rattle.std.specs.Prelude.{◌≡◌, ◌↔◌, IsTrue};

use crate::operands::{Channel, Operands};

/// What a blend equation multiplies a term by (Direct3D 11, `D3D11_BLEND`, where the constant is called the blend
/// factor).
#[derive(Clone, Copy, Debug, PartialEq, Eq)]
pub enum BlendFactor {
    Zero,
    One,
    SourceColour,
    InverseSourceColour,
    SourceAlpha,
    InverseSourceAlpha,
    StoredAlpha,
    InverseStoredAlpha,
    StoredColour,
    InverseStoredColour,
    SourceAlphaSaturated,
    Constant,
    InverseConstant,
}

impl BlendFactor {
    ghost use Rattle.shade.specs.Blend.{factor, IsOfSourceAlpha};

    /// The factor times 255.
    pub fn value(self, channel: Channel, operands: &Operands) -> u8
        ensures { result ≡ factor self channel operands.now }
    {
        match self {
            BlendFactor::Zero => 0,
            BlendFactor::One => 255,
            BlendFactor::SourceColour => operands.source,
            BlendFactor::InverseSourceColour => 255 - operands.source,
            BlendFactor::SourceAlpha => operands.source_alpha,
            BlendFactor::InverseSourceAlpha => 255 - operands.source_alpha,
            BlendFactor::StoredAlpha => operands.stored_alpha,
            BlendFactor::InverseStoredAlpha => 255 - operands.stored_alpha,
            BlendFactor::StoredColour => operands.stored,
            BlendFactor::InverseStoredColour => 255 - operands.stored,
            BlendFactor::SourceAlphaSaturated => match channel {
                Channel::Colour => operands.source_alpha.min(255 - operands.stored_alpha),
                Channel::Alpha => 255,
            },
            BlendFactor::Constant => operands.constant,
            BlendFactor::InverseConstant => 255 - operands.constant,
        }
    }

    /// Whether the factor of a colour channel is made from the fragment's alpha.
    #[inline(always)]
    pub(crate) fn is_of_source_alpha(self) -> bool
        ensures { IsTrue result ↔ IsOfSourceAlpha self }
    {
        self == BlendFactor::SourceAlpha
            || self == BlendFactor::InverseSourceAlpha
            || self == BlendFactor::SourceAlphaSaturated
    }
}
