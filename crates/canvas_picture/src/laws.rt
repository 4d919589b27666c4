//! Laws that both ways to a picture are one. Their functions do nothing.
ghost use Rattle.std.specs.Prelude.{◌≡◌, ℕ, ◌*◌, ◌<◌, ◌≤◌, Bool, List, ◌++◌, length};
ghost use Rattle.grid.specs.Samples.{count_of};
ghost use Rattle.lanes.specs.declared.block_samples.BlockSamples.{BlockSamples};
ghost use Rattle.shade.specs.declared.placed.Placed.{Placed};
ghost use Rattle.shade.specs.declared.sample.CanvasSample.{CanvasSample};
ghost use Rattle.draw_list.specs.declared.output.Output.TheVariants.{Color, Depth};
ghost use Rattle.draw_list.specs.Scene.{Scene};
ghost use Rattle.draw_list.specs.Picture.{IsPicture};
ghost use Rattle.canvas.specs.declared.canvas.Canvas.{Canvas};
ghost use Rattle.readout.specs.declared.format.Format.{Format};
ghost use Rattle.readout.specs.declared.format.Format.TheVariants.{Rgb8};
ghost use Rattle.canvas.specs.Layout.{rows_of};
ghost use Rattle.canvas.specs.Drawing.{AreCleared, HaveEnds};
ghost use Rattle.readout.specs.Pixels.{pixel_bytes};
ghost use Rattle.readout.specs.Loaded.{AreLoaded, AreStored};
ghost use Rattle.readout.specs.Tiles.{AreTileIds, AreTileColours};
ghost use Rattle.readout.specs.Colours.{AreResolved, AreEntries, AreDepths};
ghost use Rattle.canvas_picture.specs.Batches.{IsCanvasOf, AreListed, AreMade, ArePairsOf};
ghost use Rattle.canvas_picture.specs.Parts.{AreUpper, AreUpperRows};

/// A canvas of the size of a draw list, cleared to the list's clear values and an alpha of 255, drawn with its triangles in any batches one
/// after another, and resolved to RGB8 without padding, is the list's picture of colours.
pub fn draws_pictures()
    ensures { (l : Scene) (c : Canvas) (batches : List (List Placed)) (samples : List BlockSamples) (old bytes : List ℕ)
        → l.output ≡ Color → IsCanvasOf l c → AreListed l batches → AreMade l c batches samples
        → length bytes ≡ 3 * (l.height * l.width) → AreResolved c 0 (rows_of c) samples Rgb8 (3 * c.width) old bytes
        → IsPicture l bytes }
{}

/// The depths of the samples 0 of the same canvas, without padding, each in two bytes of which the more significant
/// comes first, are the list's picture of depths.
pub fn draws_depths()
    ensures { (l : Scene) (c : Canvas) (batches : List (List Placed)) (samples : List BlockSamples) (old depths bytes : List ℕ)
        → l.output ≡ Depth → IsCanvasOf l c → AreListed l batches → AreMade l c batches samples
        → length depths ≡ l.height * l.width → AreDepths c 0 (rows_of c) samples 0 c.width old depths →
        ArePairsOf depths bytes
        → IsPicture l bytes }
{}

/// Two parts of tile rows, one below the other, each cleared, drawn, loaded and read out by itself, are the whole: the
/// planes of the upper part, and behind them those of the lower one, are those of all these tile rows, and so are the
/// rows of pixels. A tile is read and stored in its part as in the whole. Either part can be two parts itself, so this
/// is so of any number of them.
pub fn joins_parts()
    ensures cleared { (c : Canvas) (first at end : ℕ) (sample : CanvasSample) (xs ys : List BlockSamples) → AreUpper c first at end xs
        → AreCleared c first at sample xs → AreCleared c at end sample ys → AreCleared c first end sample (xs ++ ys) }
    ensures drawn { (ts : List Placed) (c : Canvas) (first at end : ℕ) (xs ys new new' : List BlockSamples) → AreUpper c first at end xs → AreUpper c first at end new
        → HaveEnds ts c first at xs new → HaveEnds ts c at end ys new' →
        HaveEnds ts c first end (xs ++ ys) (new ++ new') }
    ensures resolved { (c : Canvas) (first at end : ℕ) (xs ys : List BlockSamples) (old new old' new' : List ℕ) (format : Format) (stride : ℕ) → AreUpper c first at end xs
        → AreUpperRows c first at (pixel_bytes format) stride old →
        AreUpperRows c first at (pixel_bytes format) stride new
        → AreResolved c first at xs format stride old new → AreResolved c at end ys format stride old' new'
        → AreResolved c first end (xs ++ ys) format stride (old ++ old') (new ++ new') }
    ensures entries { (entry : CanvasSample → ℕ) (c : Canvas) (first at end s : ℕ) (xs ys : List BlockSamples) (old new old' new' : List ℕ) (stride : ℕ) → AreUpper c first at end xs
        → s < count_of c.count → AreUpperRows c first at 1 stride old → AreUpperRows c first at 1 stride new
        → AreEntries entry c first at xs s stride old new → AreEntries entry c at end ys s stride old' new'
        → AreEntries entry c first end (xs ++ ys) s stride (old ++ old') (new ++ new') }
    ensures loaded { (c : Canvas) (first at end : ℕ) (xs ys new new' : List BlockSamples) (bytes bytes' : List ℕ) (format : Format) (stride : ℕ) (alpha : Bool)
        → AreUpper c first at end xs → AreUpper c first at end new → AreUpperRows c first at (pixel_bytes format) stride bytes
        → AreLoaded c first at bytes format stride alpha xs new → AreLoaded c at end bytes' format stride alpha ys new'
        → AreLoaded c first end (bytes ++ bytes') format stride alpha (xs ++ ys) (new ++ new') }
    ensures stored { (c : Canvas) (first at end s : ℕ) (xs ys new new' : List BlockSamples) (bytes bytes' : List ℕ) (format : Format) (stride : ℕ) (alpha : Bool)
        → AreUpper c first at end xs → AreUpper c first at end new → AreUpperRows c first at (pixel_bytes format) stride bytes
        → AreStored c first at s bytes format stride alpha xs new → AreStored c at end s bytes' format stride alpha ys new'
        → AreStored c first end s (bytes ++ bytes') format stride alpha (xs ++ ys) (new ++ new') }
    ensures tile_ids { (c : Canvas) (first at end column row : ℕ) (xs ys : List BlockSamples) (ids : List ℕ) → AreUpper c first at end xs
        → (row < at → AreTileIds c first at column row xs ids → AreTileIds c first end column row (xs ++ ys) ids)
        × (at ≤ row → AreTileIds c at end column row ys ids → AreTileIds c first end column row (xs ++ ys) ids) }
    ensures tile_colours { (c : Canvas) (first at end column row : ℕ) (entries : List ℕ) (xs ys new new' : List BlockSamples) → AreUpper c first at end xs → AreUpper c first at end new
        → (row < at → AreTileColours c first at column row entries xs new →
        AreTileColours c first end column row entries (xs ++ ys) (new ++ ys))
        × (at ≤ row → AreTileColours c at end column row entries ys new' →
        AreTileColours c first end column row entries (xs ++ ys) (xs ++ new')) }
{}
