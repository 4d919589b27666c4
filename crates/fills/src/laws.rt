//! Laws of polygons that are drawn on canvases. Their functions do nothing.
ghost use Rattle.std.specs.Prelude.{◌≡◌, ℕ, List, ◌++◌};
ghost use Rattle.lanes.specs.declared.block_samples.BlockSamples.{BlockSamples};
ghost use Rattle.canvas.specs.declared.canvas.Canvas.{Canvas};
ghost use Rattle.canvas.specs.declared.window.Origin.{Origin};
ghost use Rattle.canvas.specs.Layout.{IsStoredIn, stored};
ghost use Rattle.canvas.specs.Window.{IsSamePixel};
ghost use Rattle.fills.specs.Painting.{Shape, ArePainted};

/// Polygons that are drawn in two calls make of each sample what all of them make of it in one call. Wherever a sample
/// of the screen is stored, in some tile rows or on another canvas, they make the same of it. So polygons may be split
/// into batches, and the screen into tile rows and windows.
pub fn joins_polygons()
    ensures joined { (ps qs : List Shape) (origin : Origin) (c : Canvas) (first end : ℕ) (old middle new : List BlockSamples)
        → ArePainted ps origin c first end old middle → ArePainted qs origin c first end middle new →
        ArePainted (ps ++ qs) origin c first end old new }
    ensures windows { (ps : List Shape) (origin origin' : Origin) (c c' : Canvas) (first end first' end' : ℕ) (old new old' new' : List BlockSamples) → c'.count ≡ c.count
        → ArePainted ps origin c first end old new → ArePainted ps origin' c' first' end' old' new'
        → (i j i' j' s : ℕ) → IsStoredIn c first end i j s → IsStoredIn c' first' end' i' j' s → IsSamePixel origin origin' i j i' j'
        → stored c' first' old' i' j' s ≡ stored c first old i j s →
        stored c' first' new' i' j' s ≡ stored c first new i j s }
{}
