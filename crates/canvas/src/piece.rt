//! Tile rows with the memory of their samples.
ghost use Rattle.std.specs.Prelude.{◌≡◌, ◌↔◌, length, IsTrue};
ghost use Rattle.shade.specs.Canvas.{with_alpha};
ghost use Rattle.canvas.specs.Layout.{planes_of_rows};
ghost use Rattle.canvas.specs.Drawing.{AreCleared, HaveEnds};
ghost use Rattle.canvas.specs.Tiles.{AreUniform};

use crate::tile_rows::TileRows;
use lanes::BlockSamples;
use shade::{Sample, Triangles};

/// Tile rows with the planes of their samples, to be cleared and drawn on.
#[derive(Drop)]
pub struct Piece<'a> {
    /// The tile rows.
    pub rows: TileRows,
    /// Their planes.
    pub planes: &'a mut [BlockSamples],
    pub ghost fits: { length planes.now ≡ planes_of_rows rows.canvas rows.first rows.end },
}

impl TileRows {
    /// Whether these tile rows have this many planes.
    pub fn fits(&self, planes: usize) -> bool
        ensures { IsTrue result ↔ (planes ≡ planes_of_rows self.now.canvas self.now.first self.now.end) }
    {
        planes == self.planes()
    }

    /// These tile rows with their planes.
    pub fn over<'a>(&self, planes: &'a mut [BlockSamples]) -> Piece<'a>
        requires { length planes.old ≡ planes_of_rows self.now.canvas self.now.first self.now.end }
        ensures rows { result.rows ≡ self.now }
        ensures planes { result.planes.now ≡ planes.old }
        ensures same { result.planes.ghost_name ≡ planes.entry.ghost_name }
    {
        Piece {
            rows: *self,
            planes,
        }
    }
}

impl Piece<'_> {
    /// Makes each sample of these tile rows the given one, with this alpha if alpha is stored. Each block of each tile is
    /// then kept as the one to which the tile was cleared, so `View::tile_ids` writes one id for each tile.
    pub fn clear(&mut self, sample: Sample, alpha: u8)
        ensures cleared { AreCleared self.old.rows.canvas self.old.rows.first self.old.rows.end
            (with_alpha sample alpha) self.new.planes.now }
        ensures uniform { AreUniform self.old.rows.canvas self.old.rows.first self.old.rows.end self.new.planes.now }
        ensures rows { self.new.rows ≡ self.old.rows }
        ensures same { self.new.planes.ghost_name ≡ self.old.planes.ghost_name }
    {
        self.rows.clear_all(sample, alpha, self.planes);
    }

    /// Draws the triangles of a source at each sample of these tile rows, one after another: what stood there is what
    /// they begin with. So the picture of many calls is that of all their triangles in the order of the calls
    /// (`joins_batches`).
    pub fn draw<T: Triangles>(&mut self, triangles: &T)
        ensures drawn { HaveEnds (T.listed triangles.now) self.old.rows.canvas self.old.rows.first self.old.rows.end
            self.old.planes.now self.new.planes.now }
        ensures rows { self.new.rows ≡ self.old.rows }
        ensures same { self.new.planes.ghost_name ≡ self.old.planes.ghost_name }
    {
        self.rows.draw_all(triangles, self.planes);
    }
}
