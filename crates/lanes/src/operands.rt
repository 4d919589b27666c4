use std::simd::prelude::*;

/// What the blend equation of alpha reads of sixteen samples, 0 to 255 each.
#[derive(Clone, Copy, Debug)]
pub(crate) struct AlphaOperands {
    /// The alpha of the fragments.
    pub(crate) source: u16x16,
    /// The stored alpha.
    pub(crate) stored: u16x16,
    /// The alpha of the constant colour.
    pub(crate) constant: u8,
}

/// Red, green and blue of sixteen samples.
#[derive(Clone, Copy, Debug)]
pub(crate) struct ColourLanes {
    pub(crate) red: u16x16,
    pub(crate) green: u16x16,
    pub(crate) blue: u16x16,
}

/// What the blend equation of colours reads for sixteen samples, 0 to 255 each.
#[derive(Clone, Copy, Debug)]
pub(crate) struct ColourOperands {
    /// The colours of the fragments.
    pub(crate) source: ColourLanes,
    /// The alpha of the fragments.
    pub(crate) source_alpha: u16x16,
    /// The stored colours.
    pub(crate) stored: ColourLanes,
    /// The stored alpha; 255 if no alpha is stored.
    pub(crate) stored_alpha: u16x16,
    /// The constant colour.
    pub(crate) constant: [u8; 4],
}
