ghost use Rattle.shade.specs.Blend.{IsOver};

use crate::equation::{BlendOperation, Equation};
use crate::factor::BlendFactor;

/// A blend state (Direct3D 11, `D3D11_RENDER_TARGET_BLEND_DESC` and the blend factor).
#[derive(Clone, Copy, Debug, PartialEq, Eq)]
pub struct Blend {
    /// The equation of red, green and blue.
    pub colour: Equation,
    /// The equation of alpha.
    pub alpha: Equation,
    /// Red, green, blue and alpha of the constant colour.
    pub constant: [u8; 4],
    /// Whether alpha is written, where it is stored.
    pub write_alpha: bool,
}

impl Equation {
    /// The source replaces the stored channel.
    pub const REPLACE: Equation = Equation {
        source: BlendFactor::One,
        stored: BlendFactor::Zero,
        operation: BlendOperation::Add,
    };
    /// The stored channel is left.
    pub const KEEP: Equation = Equation {
        source: BlendFactor::Zero,
        stored: BlendFactor::One,
        operation: BlendOperation::Add,
    };
    /// The source over the stored channel (Porter and Duff 1984), for a colour that is not multiplied by its alpha.
    pub const OVER: Equation = Equation {
        source: BlendFactor::SourceAlpha,
        stored: BlendFactor::InverseSourceAlpha,
        operation: BlendOperation::Add,
    };
    /// The source over the stored channel, for a colour that is multiplied by its alpha, and for alpha itself.
    pub const PREMULTIPLIED_OVER: Equation = Equation {
        source: BlendFactor::One,
        stored: BlendFactor::InverseSourceAlpha,
        operation: BlendOperation::Add,
    };
    /// The sum.
    pub const ADD: Equation = Equation {
        source: BlendFactor::One,
        stored: BlendFactor::One,
        operation: BlendOperation::Add,
    };
    /// The sum, with the source multiplied by its alpha.
    pub const ADD_BY_ALPHA: Equation = Equation {
        source: BlendFactor::SourceAlpha,
        stored: BlendFactor::One,
        operation: BlendOperation::Add,
    };
    /// The product: the stored channel as the factor of the source.
    pub const MULTIPLY: Equation = Equation {
        source: BlendFactor::StoredColour,
        stored: BlendFactor::Zero,
        operation: BlendOperation::Add,
    };
}

impl Blend {
    /// The new colour replaces the stored one.
    pub const NONE: Blend = Blend {
        colour: Equation::REPLACE,
        alpha: Equation::REPLACE,
        constant: [0; 4],
        write_alpha: false,
    };
    /// The new colour over the stored one by its alpha.
    pub const OVER: Blend = Blend {
        colour: Equation::OVER,
        alpha: Equation::PREMULTIPLIED_OVER,
        constant: [0; 4],
        write_alpha: false,
    };
    /// The new colour over the stored one, for colours that are multiplied by their alpha.
    pub const PREMULTIPLIED: Blend = Blend {
        colour: Equation::PREMULTIPLIED_OVER,
        alpha: Equation::PREMULTIPLIED_OVER,
        constant: [0; 4],
        write_alpha: false,
    };
    /// The new colour, multiplied by its alpha, is added to the stored one.
    pub const ADD: Blend = Blend {
        colour: Equation::ADD_BY_ALPHA,
        alpha: Equation::ADD,
        constant: [0; 4],
        write_alpha: false,
    };
    /// The product of both.
    pub const MULTIPLY: Blend = Blend {
        colour: Equation::MULTIPLY,
        alpha: Equation::MULTIPLY,
        constant: [0; 4],
        write_alpha: false,
    };
    /// The stored colour is left.
    pub const KEEP: Blend = Blend {
        colour: Equation::KEEP,
        alpha: Equation::KEEP,
        constant: [0; 4],
        write_alpha: false,
    };
}

/// The source channel `s` over the stored channel `d` by the source's alpha `a`, of which 255 is opaque (source-over of
/// Porter and Duff 1984), rounded to nearest (the rounding is this project's rule).
pub fn over(s: u8, a: u8, d: u8) -> u8
    ensures { IsOver s a d result }
{
    let sum = u32::from(s) * u32::from(a) + u32::from(d) * (255 - u32::from(a)) + 127;
    (sum / 255) as u8
}
