ghost use Rattle.std.specs.Prelude.{◌≡◌, ◌<◌, pos, ◌+ℤ◌, ◌*ℤ◌, ◌≤ℤ◌, ◌<ℤ◌};
ghost use Rattle.grid.specs.Position.{IsInBand};
ghost use Rattle.grid.specs.Samples.{count_of};
ghost use Rattle.polygons.specs.Screen.{IsPixelInBand, screen_sample};

use grid::{Point, SampleCount, sample_at};

/// 64 rows of pixels of the screen. The first pixel may be left of the screen or above it.
#[derive(Clone, Copy, Debug)]
pub struct Strip {
    /// The column of the first pixel.
    pub column: i32,
    /// The row of the first pixel.
    pub row: i32,
    /// How many samples a pixel has.
    pub count: SampleCount,
    pub ghost across: { IsPixelInBand column },
    pub ghost below: { IsPixelInBand row },
}

impl Strip {
    /// Where sample `s` of the first pixel lies.
    pub fn start(&self, s: u32) -> Point
        requires { s < count_of self.now.count }
        ensures { result ≡ screen_sample self.now.column self.now.row s self.now.count }
    {
        let offset = sample_at(0, 0, s, self.count);
        let x = place(self.column, offset.x());
        let y = place(self.row, offset.y());
        point_at(x, y)
    }
}

/// The point at these coordinates of the guard band.
pub(crate) fn point_at(x: i32, y: i32) -> Point
    requires x { IsInBand x }
    requires y { IsInBand y }
    ensures { result ≡ record { x = x; y = y } }
{
    Point::new(x, y).unwrap()
}

/// The coordinate of a sample, by the column or the row of its pixel and by where it lies in the pixel.
fn place(pixel: i32, offset: i32) -> i32
    requires pixel { IsPixelInBand pixel }
    requires low { pos 0 ≤ℤ offset }
    requires high { offset <ℤ pos 256 }
    ensures value { result ≡ pos 256 *ℤ pixel +ℤ offset }
    ensures in_band { IsInBand result }
{
    256 * pixel + offset
}
