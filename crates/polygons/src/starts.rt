//! Where the samples of a strip begin.
ghost use Rattle.std.specs.Prelude.{◌≡◌, ℕ, ◌<◌, ◌≤◌, pos, ◌+ℤ◌, ◌*ℤ◌, ◌<ℤ◌, ◌≤ℤ◌, slice_index, slice_index_or};
ghost use Rattle.grid.specs.Position.{IsInBand};
ghost use Rattle.grid.specs.Samples.{count_of, parts_of};
ghost use Rattle.polygons.specs.Screen.{IsPixelInBand};
ghost use Rattle.polygons.specs.Strip.{start_of, AreFirstRows};

use crate::pixels::first_pixel;
use crate::strip::Strip;
use grid::Point;

/// A strip, and where its first pixel has each sample. These places are looked up once a strip, since an edge that is
/// shorter than a pixel costs little more than looking them up.
#[derive(Clone, Copy, Debug)]
pub(crate) struct Starts {
    pub strip: Strip,
    points: [Point; 16],
    heights: [i32; 16],
    /// How far below each sample its pixel ends, in 1/256 pixel. Samples that a pixel does not have are so far away that
    /// no edge runs through their rows.
    pub below: [u16; 16],
    /// How far right of each sample its pixel ends.
    pub right: [u16; 16],
    pub ghost held: { (s : ℕ) → s < count_of strip.count →
        slice_index_or points s (record { x = pos 0; y = pos 0 }) ≡ start_of strip s },
    pub ghost level: { (s : ℕ) → s < count_of strip.count →
        slice_index_or heights s (pos 0) ≡ (start_of strip s).y },
    pub ghost in_band: { (s : ℕ) → s < 16 → IsInBand (slice_index_or heights s (pos 0)) },
    pub ghost downwards: { (s : ℕ) → s < count_of strip.count →
        (start_of strip s).y +ℤ pos (slice_index below s) ≡ pos 256 *ℤ strip.row +ℤ pos 256 },
    pub ghost rightwards: { (s : ℕ) → s < count_of strip.count →
        (start_of strip s).x +ℤ pos (slice_index right s) ≡ pos 256 *ℤ strip.column +ℤ pos 256 },
    pub ghost absent: { (s : ℕ) → count_of strip.count ≤ s → s < 16 → slice_index below s ≡ 32768 },
    pub ghost below_room: { (s : ℕ) → s < 16 → slice_index below s ≤ 32768 },
    pub ghost right_room: { (s : ℕ) → s < 16 → slice_index right s ≤ 32768 },
}

/// How far behind a place the pixel of this column or row ends.
fn to_end(pixel: i32, place: i32) -> u16
    requires pixel { IsPixelInBand pixel }
    requires low { (pos 256 *ℤ pixel) ≤ℤ place }
    requires high { place <ℤ (pos 256 *ℤ pixel +ℤ pos 256) }
    ensures value { place +ℤ pos result ≡ pos 256 *ℤ pixel +ℤ pos 256 }
    ensures small { result ≤ 256 }
{
    (256 * pixel + 256 - place) as u16
}

impl Starts {
    /// The strip with these places.
    pub(crate) fn new(strip: &Strip) -> Starts
        ensures { result.strip ≡ strip.now }
    {
        let mut points = [strip.start(0); 16];
        let mut heights = [0; 16];
        let mut below = [32768; 16];
        let mut right = [0; 16];
        for s in 0..strip.count.count() {
            let start = strip.start(s);
            points[s as usize] = start;
            heights[s as usize] = start.y();
            below[s as usize] = to_end(strip.row, start.y());
            right[s as usize] = to_end(strip.column, start.x());
        }
        Starts {
            strip: *strip,
            points,
            heights,
            below,
            right,
        }
    }

    /// Where sample `s` lies in the first pixel.
    #[inline(always)]
    pub(crate) fn of(&self, s: usize) -> Point
        requires { s < count_of self.now.strip.count }
        ensures { result ≡ start_of self.now.strip s }
    {
        self.points[s]
    }

    /// Of each sample of a part, the first row that is not above the height `y`. All four are found at once.
    #[inline(always)]
    pub(crate) fn rows(&self, part: usize, y: i32) -> [i32; 4]
        requires part { part < parts_of self.now.strip.count }
        requires y { IsInBand y }
        ensures { AreFirstRows self.now.strip part y result }
    {
        let from = 4 * part;
        [
            first_pixel(self.heights[from], y),
            first_pixel(self.heights[from + 1], y),
            first_pixel(self.heights[from + 2], y),
            first_pixel(self.heights[from + 3], y),
        ]
    }
}
