//! Blend equations by the numbers of Direct3D 11. It leaves 0 free, which stands for the default here: one for the new
//! channel, zero for the stored one, and add. So a struct of zeros is the blend state in which the new colour replaces
//! the stored one.
ghost use Rattle.std.specs.Prelude.{◌≡◌, ◌↔◌, IsTrue};
ghost use Rattle.batch.specs.Equations.{factor_numbered, operation_numbered, equation_numbered, blend_numbered, IsFactor, HasKnownFactors, HasKnownOperations};

use shade::{Blend, BlendFactor, BlendOperation, Equation};

/// How the new colour is combined with the stored one, laid out as in C.
#[repr(C)]
#[derive(Clone, Copy, Debug, PartialEq, Eq)]
pub struct BatchBlend {
    /// What the new colour is multiplied by.
    pub color_source: u8,
    /// What the stored colour is multiplied by.
    pub color_stored: u8,
    /// How the two are combined.
    pub color_operation: u8,
    /// What the new alpha is multiplied by.
    pub alpha_source: u8,
    /// What the stored alpha is multiplied by.
    pub alpha_stored: u8,
    /// How the two are combined.
    pub alpha_operation: u8,
    /// Red, green, blue and alpha of the constant colour.
    pub constant: [u8; 4],
}

/// The factor with a number of `D3D11_BLEND`, or the given one for 0. Returns `None` if there is no such factor.
fn factor_of(number: u8, default: BlendFactor) -> Option<BlendFactor>
    ensures { result ≡ factor_numbered number default }
{
    let factor = match number {
        0 => default,
        // generated: factors
        1 => BlendFactor::Zero,
        2 => BlendFactor::One,
        3 => BlendFactor::SourceColour,
        4 => BlendFactor::InverseSourceColour,
        5 => BlendFactor::SourceAlpha,
        6 => BlendFactor::InverseSourceAlpha,
        7 => BlendFactor::StoredAlpha,
        8 => BlendFactor::InverseStoredAlpha,
        9 => BlendFactor::StoredColour,
        10 => BlendFactor::InverseStoredColour,
        11 => BlendFactor::SourceAlphaSaturated,
        14 => BlendFactor::Constant,
        15 => BlendFactor::InverseConstant,
        // end of factors
        _ => return None,
    };
    Some(factor)
}

/// Whether there is a factor with this number.
fn is_factor(number: u8) -> bool
    ensures { IsTrue result ↔ IsFactor number }
{
    factor_of(number, BlendFactor::One).is_some()
}

/// The operation with a number of `D3D11_BLEND_OP`, or `Add` for 0. Returns `None` if there is no such operation.
fn operation_of(number: u8) -> Option<BlendOperation>
    ensures { result ≡ operation_numbered number }
{
    match number {
        // generated: operations
        0 | 1 => Some(BlendOperation::Add),
        2 => Some(BlendOperation::Subtract),
        3 => Some(BlendOperation::ReverseSubtract),
        4 => Some(BlendOperation::Min),
        5 => Some(BlendOperation::Max),
        // end of operations
        _ => None,
    }
}

/// The equation with these numbers. Returns `None` if one of them is not known.
fn equation_of(source: u8, stored: u8, operation: u8) -> Option<Equation>
    ensures { result ≡ equation_numbered source stored operation }
{
    let source = factor_of(source, BlendFactor::One)?;
    let stored = factor_of(stored, BlendFactor::Zero)?;
    let operation = operation_of(operation)?;
    Some(Equation {
        source,
        stored,
        operation,
    })
}

impl BatchBlend {
    /// Nothing is blended: the new colour replaces the stored one.
    pub const NONE: BatchBlend = BatchBlend {
        color_source: 0,
        color_stored: 0,
        color_operation: 0,
        alpha_source: 0,
        alpha_stored: 0,
        alpha_operation: 0,
        constant: [0; 4],
    };

    /// The equation of red, green and blue.
    fn colour(&self) -> Option<Equation>
        ensures { result ≡ equation_numbered self.now.color_source self.now.color_stored self.now.color_operation }
    {
        equation_of(self.color_source, self.color_stored, self.color_operation)
    }

    /// The equation of alpha.
    fn alpha(&self) -> Option<Equation>
        ensures { result ≡ equation_numbered self.now.alpha_source self.now.alpha_stored self.now.alpha_operation }
    {
        equation_of(self.alpha_source, self.alpha_stored, self.alpha_operation)
    }

    /// Whether each factor is one that there is.
    pub(crate) fn has_factors(&self) -> bool
        ensures { IsTrue result ↔ HasKnownFactors self.now }
    {
        let of_colours = is_factor(self.color_source) && is_factor(self.color_stored);
        of_colours && is_factor(self.alpha_source) && is_factor(self.alpha_stored)
    }

    /// Whether both operations are ones that there are.
    pub(crate) fn has_operations(&self) -> bool
        ensures { IsTrue result ↔ HasKnownOperations self.now }
    {
        operation_of(self.color_operation).is_some() && operation_of(self.alpha_operation).is_some()
    }

    /// The blend state, with alpha written or not; an equation whose numbers are not known replaces the stored channel.
    pub(crate) fn blend(&self, write_alpha: bool) -> Blend
        ensures { result ≡ blend_numbered self.now write_alpha }
    {
        Blend {
            colour: self.colour().unwrap_or(Equation::REPLACE),
            alpha: self.alpha().unwrap_or(Equation::REPLACE),
            constant: self.constant,
            write_alpha,
        }
    }
}
