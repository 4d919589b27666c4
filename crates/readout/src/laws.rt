//! Laws of what is stored and read back. Their functions do nothing.
ghost use Rattle.std.specs.Prelude.{Bool, if◌then◌else◌, ◌≡◌, ◌<◌, ◌^◌, ℕ, ◌+◌, slice_index, List};
ghost use Rattle.grid.specs.Samples.{count_of};
ghost use Rattle.lanes.specs.declared.block_samples.BlockSamples.{BlockSamples};
ghost use Rattle.canvas.specs.declared.canvas.Canvas.{Canvas};
ghost use Rattle.readout.specs.declared.format.Format.{Format};
ghost use Rattle.canvas.specs.Layout.{IsStoredIn, HasPixel, stored};
ghost use Rattle.readout.specs.Pixels.{IsAsStored, HasAlpha, pixel_bytes, entry_of};
ghost use Rattle.readout.specs.Colours.{AreColours};
ghost use Rattle.readout.specs.Loaded.{AreStored};
ghost use Rattle.canvas.specs.Tiles.{HasBytes};
ghost use Rattle.readout.specs.Tiles.{IsInTile, said_of, AreTileIds, AreTileColours};

/// Storing the ids that were read of a tile changes no sample, and what was stored in a tile is what is read of it.
pub fn keeps_tiles()
    ensures ids { (c : Canvas) (first end column row : ℕ) (entries : List ℕ) (old new : List BlockSamples)
        → AreTileIds c first end column row old entries → AreTileColours c first end column row entries old new
        → (i j s : ℕ) → IsStoredIn c first end i j s → HasBytes (stored c first old i j s) →
        stored c first new i j s ≡ stored c first old i j s }
    ensures colours { (c : Canvas) (first end column row : ℕ) (entries back : List ℕ) (old new : List BlockSamples)
        → AreTileColours c first end column row entries old new → AreTileIds c first end column row new back
        → (i j s : ℕ) → IsStoredIn c first end i j s → IsInTile column row i j →
        said_of c.count entries i j s < 2 ^ 24 → said_of c.count back i j s ≡ said_of c.count entries i j s }
{}

/// The colours that were stored for one sample index are those that are read of it, in a format whose channels are those
/// that are stored: the first three bytes of each pixel are the same. So is its alpha, if alpha was stored too; else 255
/// is read.
pub fn keeps_colours()
    ensures colours { (c : Canvas) (first end s stride : ℕ) (format : Format) (bytes before after : List ℕ) (too : Bool) (old new : List BlockSamples) → IsAsStored format → s < count_of c.count
        → AreStored c first end s bytes format stride too old new → AreColours c first end new s format stride before after
        → (i j k : ℕ) → HasPixel c first end i j → k < 3 →
        slice_index after (entry_of first (pixel_bytes format) stride i j + k) ≡
        slice_index bytes (entry_of first (pixel_bytes format) stride i j + k) }
    ensures alpha { (c : Canvas) (first end s stride : ℕ) (format : Format) (bytes before after : List ℕ) (too : Bool) (old new : List BlockSamples) → IsAsStored format → HasAlpha format → s < count_of c.count
        → AreStored c first end s bytes format stride too old new → AreColours c first end new s format stride before after
        → (i j : ℕ) → HasPixel c first end i j →
        slice_index after (entry_of first (pixel_bytes format) stride i j + 3) ≡
        (if too then slice_index bytes (entry_of first (pixel_bytes format) stride i j + 3) else 255) }
{}
