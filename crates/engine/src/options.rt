//! The options of a drawing.
use grid::TileSide;

/// How a picture is drawn. No option changes a byte of it.
#[derive(Clone, Copy, Debug, PartialEq, Eq)]
pub struct Options {
    /// The tile size, in pixels.
    pub tile: TileSide,
    /// How many threads draw tiles, from 1 to 16.
    pub workers: u32,
}
