/// Why nothing was read or written.
#[derive(Clone, Copy, Debug, PartialEq, Eq)]
pub enum Misfit {
    /// The stride is smaller than a row of pixels, or the last row of pixels ends behind the slice; or a tile has more
    /// entries than it.
    Pixels,
    /// A pixel has no sample of this index.
    Sample,
    /// The tile rows have no such tile.
    Tile,
}
