//! Tile rows with the memory of their samples, to be read.
ghost use Rattle.std.specs.Prelude.{◌≡◌, length};
ghost use Rattle.canvas.specs.Layout.{planes_of_rows};

use canvas::TileRows;
use lanes::BlockSamples;

/// Tile rows with the planes of their samples, to be read out.
#[derive(Clone, Copy)]
pub struct View<'a> {
    /// The tile rows.
    pub rows: TileRows,
    /// Their planes.
    pub planes: &'a [BlockSamples],
    pub ghost fits: { length planes.now ≡ planes_of_rows rows.canvas rows.first rows.end },
}

impl<'a> View<'a> {
    /// These tile rows with their planes, to be read out.
    pub fn of(rows: &TileRows, planes: &'a [BlockSamples]) -> View<'a>
        requires { length planes.now ≡ planes_of_rows rows.now.canvas rows.now.first rows.now.end }
        ensures rows { result.rows ≡ rows.now }
        ensures planes { result.planes.now ≡ planes.now }
    {
        View {
            rows: *rows,
            planes,
        }
    }
}
