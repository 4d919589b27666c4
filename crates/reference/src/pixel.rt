ghost use Rattle.std.specs.Prelude.{◌≡◌, ◌<◌};
ghost use Rattle.grid.specs.Samples.{count_of};
ghost use Rattle.shade.specs.Ending.{Ends};
ghost use Rattle.shade.specs.declared.sample.Sample.{Sample};
ghost use Rattle.draw_list.specs.Picture.{IsEnd, IsColour};

use crate::triangle_sample::draw;
use draw_list::DrawList;
use grid::SampleCount;
use shade::{MAX_SAMPLES, Sample, Triangles, resolved_colour};

/// The colour of a pixel.
#[derive(Clone, Copy, Debug, PartialEq, Eq)]
pub struct Colour {
    pub r: u8,
    pub g: u8,
    pub b: u8,
}

/// Sample `s` of the pixel in column `px` and row `py`, which stores `start`, after all triangles of a source.
pub fn end_of<S: Triangles>(
    source: &S,
    count: SampleCount,
    px: u32,
    py: u32,
    s: u32,
    start: Sample,
) -> Sample
    requires column { px < 4096 }
    requires row { py < 4096 }
    requires sample { s < count_of count }
    ensures end { Ends (S.listed source.now) count px py s start result }
    ensures only { (other : Sample) → Ends (S.listed source.now) count px py s start other → other ≡ result }
{
    let mut sample = start;
    for number in 0..source.count() {
        sample = draw(&source.triangle(number), count, px, py, s, sample);
    }
    sample
}

/// Sample `s` of the pixel in column `px` and row `py` after all triangles of the list.
pub fn end_at(list: &DrawList, px: u32, py: u32, s: u32) -> Sample
    requires column { px < 4096 }
    requires row { py < 4096 }
    requires sample { s < count_of list.now.count }
    ensures end { IsEnd list.now px py s result }
    ensures only { (other : Sample) → IsEnd list.now px py s other → other ≡ result }
{
    end_of(list, list.count(), px, py, s, list.clear())
}

/// The colour of the pixel in column `px` and row `py`.
pub fn colour_at(list: &DrawList, px: u32, py: u32) -> Colour
    requires column { px < 4096 }
    requires row { py < 4096 }
    ensures { IsColour list.now px py result.r result.g result.b }
{
    let count = list.count();
    let mut ends = [list.clear(); MAX_SAMPLES];
    for s in 0..count.count() {
        ends[s as usize] = end_at(list, px, py, s);
    }
    let [r, g, b] = resolved_colour(&ends, count);
    Colour { r, g, b }
}
