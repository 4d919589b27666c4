//! The pixels of one tile.

use grid::PixelBox;

/// A tile of the picture.
#[derive(Debug, Drop)]
pub struct TilePixels {
    /// The tile's pixels, as far as they are in the picture.
    pub rect: PixelBox,
    /// The rows of the rectangle from top to bottom, the pixels of a row from left to right. Of a pixel either red,
    /// green and blue or, if the list's output is its depths, the more and the less significant byte of the depth.
    pub bytes: Vec<u8>,
}
