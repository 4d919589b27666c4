//! Laws of what is drawn. Their functions do nothing.
ghost use Rattle.std.specs.Prelude.{◌≡◌, ◌↔◌, ◌<◌, ◌≤◌, ℕ, ◌+◌, ℤ, pos, ◌+ℤ◌, map, List, ◌++◌, Option as Maybe, None as Nothing};
ghost use Rattle.grid.specs.declared.sample_count.SampleCount.{SampleCount};
ghost use Rattle.lanes.specs.declared.block_samples.BlockSamples.{BlockSamples};
ghost use Rattle.shade.specs.declared.sample.CanvasSample.{CanvasSample};
ghost use Rattle.shade.specs.declared.placed.Placed.{Placed};
ghost use Rattle.shade.specs.Canvas.{CanvasEnds};
ghost use Rattle.canvas.specs.declared.canvas.Canvas.{Canvas};
ghost use Rattle.canvas.specs.declared.window.Origin.{Origin};
ghost use Rattle.canvas.specs.Layout.{IsStoredIn, rows_of, stored};
ghost use Rattle.canvas.specs.Drawing.{HaveEnds};
ghost use Rattle.canvas.specs.Window.{moved, HaveEndsOnScreen, IsSamePixel};
ghost use Rattle.canvas.specs.Ids.{with_ids, IsLast, HasId};

/// Triangles that are drawn in two calls make of each sample what all of them make of it in one call, and of a sample
/// there is only one that they make.
pub fn joins_batches()
    ensures joined { (ts us : List Placed) (c : Canvas) (first end : ℕ) (old middle new : List BlockSamples)
        → HaveEnds ts c first end old middle → HaveEnds us c first end middle new →
        HaveEnds (ts ++ us) c first end old new }
    ensures one { (ts : List Placed) (c : Canvas) (first end : ℕ) (old new other : List BlockSamples)
        → HaveEnds ts c first end old new → HaveEnds ts c first end old other
        → (i j s : ℕ) → IsStoredIn c first end i j s → stored c first new i j s ≡ stored c first other i j s }
{}

/// What triangles in the colours of their ids make of a sample: it has the id of the last one that would have passed
/// there, drawn in its own colour, and its old colour if none would have.
pub fn tells_last()
    ensures { (ts : List Placed) (n : ℕ) (count : SampleCount) (i j s : ℕ) (start end : CanvasSample) → CanvasEnds (with_ids ts n) count i j s start end
        → (last : Maybe ℕ) × IsLast ts n count i j s start Nothing last × HasId start end last }
{}

/// Triangles as seen from the corner of pixel (x, y) make of sample s of pixel (i, j) what the triangles themselves
/// make of sample s of pixel (i + x, j + y) of the screen; and so of all samples of a canvas. A pixel may also lie left
/// of the screen or above it: from wherever it is seen, the triangles make the same of its samples. So two canvases that
/// show the same pixel and hold the same of its sample hold the same afterwards: the screen may be split into windows.
pub fn moves_by_pixels()
    ensures sample { (x y : ℤ) (ts : List Placed) (count : SampleCount) (i j column row s : ℕ) (start end : CanvasSample) → i < 4096 → j < 4096 → pos column ≡ pos i +ℤ x → pos row ≡ pos j +ℤ y
        → (CanvasEnds (map (moved x y) ts) count i j s start end ↔ CanvasEnds ts count column row s start end) }
    ensures canvas { (origin : Origin) (ts : List Placed) (c : Canvas) (first end : ℕ) (old new : List BlockSamples) → end ≤ rows_of c
        → HaveEnds (map (moved origin.x origin.y) ts) c first end old new →
        HaveEndsOnScreen origin ts c first end old new }
    ensures anywhere { (origin origin' : Origin) (ts : List Placed) (count : SampleCount) (i j i' j' s : ℕ) (start end : CanvasSample) → IsSamePixel origin origin' i j i' j'
        → i < 4096 → j < 4096 → i' < 4096 → j' < 4096
        → (CanvasEnds (map (moved origin.x origin.y) ts) count i j s start end ↔
        CanvasEnds (map (moved origin'.x origin'.y) ts) count i' j' s start end) }
    ensures windows { (origin origin' : Origin) (ts : List Placed) (c c' : Canvas) (first end first' end' : ℕ) (old new old' new' : List BlockSamples)
        → end ≤ rows_of c → end' ≤ rows_of c' → c'.count ≡ c.count
        → HaveEnds (map (moved origin.x origin.y) ts) c first end old new
        → HaveEnds (map (moved origin'.x origin'.y) ts) c' first' end' old' new'
        → (i j i' j' s : ℕ) → IsStoredIn c first end i j s → IsStoredIn c' first' end' i' j' s → IsSamePixel origin origin' i j i' j'
        → stored c' first' old' i' j' s ≡ stored c first old i j s →
        stored c' first' new' i' j' s ≡ stored c first new i j s }
{}
