//! One sample, read back.
ghost use Rattle.std.specs.Prelude.{◌≡◌, ◌↔◌, ◌<◌, IsSome, IfSome};
ghost use Rattle.grid.specs.Samples.{count_of};
ghost use Rattle.canvas.specs.Layout.{HasPixel, stored};

use crate::place::has_pixel;
use crate::view::View;
use blocks::sample_in_tile;
use shade::CanvasSample;

impl View<'_> {
    /// Returns sample `s` of pixel (i, j). Returns `None` if the pixel is not in the picture or not in these tile rows,
    /// or if a pixel has no such sample.
    pub fn sample(&self, i: u32, j: u32, s: u32) -> Option<CanvasSample>
        ensures some { IsSome result ↔ (HasPixel self.now.rows.canvas self.now.rows.first self.now.rows.end i j ×
            (s < count_of self.now.rows.canvas.count)) }
        ensures value { IfSome result (λ sample. sample ≡
            stored self.now.rows.canvas self.now.rows.first self.now.planes.now i j s) }
    {
        let canvas = &self.rows.canvas;
        if !has_pixel(&self.rows, i, j) || canvas.count.count() <= s {
            return None;
        }
        let each = canvas.planes_of_row();
        let from = (j / 64 - self.rows.first) as usize * each;
        let planes = &self.planes[from..from + each];
        let each = canvas.planes_of_tile();
        let from = (i / 64) as usize * each;
        Some(sample_in_tile(&planes[from..from + each], canvas.count, i, j, s))
    }
}
