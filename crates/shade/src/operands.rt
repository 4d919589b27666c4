/// Whether a blend equation is that of red, green and blue or that of alpha.
#[derive(Clone, Copy, Debug, PartialEq, Eq)]
pub enum Channel {
    Colour,
    Alpha,
}

/// What a blend equation reads for one channel, 0 to 255 each. For the alpha channel `source` is the source's alpha,
/// `stored` the stored alpha and `constant` the constant's alpha.
#[derive(Clone, Copy, Debug, PartialEq, Eq)]
pub struct Operands {
    /// The channel of the fragment.
    pub source: u8,
    /// The alpha of the fragment.
    pub source_alpha: u8,
    /// The stored channel.
    pub stored: u8,
    /// The stored alpha; 255 if no alpha is stored.
    pub stored_alpha: u8,
    /// The channel of the constant colour.
    pub constant: u8,
}
