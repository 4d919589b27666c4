//! The masks of the blocks on the borders of generated triangles, by `Setup::masks`, by squares that are cut into
//! quarters down to a block, and by the reference cover test at each sample. It prints a checksum of each, and with the
//! argument `--time` the time per block.
#![tactic(auto)]

ghost use Rattle.std.specs.Prelude.{◌≡◌, ◌<◌};
ghost use Rattle.grid.specs.Pixels.{side_of};

use cover::{Class, Masks, Setup, Square};
use grid::{Cull, Point, SampleCount, TileSide, Tri, sample_at};
use std::alloc::{AllocError, Global};
use std::time::Instant;
use std::{env, io};

/// How many triangles are generated, with corners on a screen of 1024 by 1024 pixels.
const TRIANGLES: u32 = 64;

/// How many blocks that screen has in a row.
const COLUMNS: u32 = 128;

/// How often all blocks are gone through if time is measured; the shortest time counts.
const ROUNDS: u32 = 50;

/// A triangle, and the numbers of the blocks that it neither covers nor leaves out.
#[derive(Drop)]
struct Scene {
    triangle: Tri,
    setup: Setup,
    border: Vec<u32>,
}

/// A linear congruential generator (Knuth's MMIX).
#[derive(Drop)]
struct Random(u64);

impl Random {
    /// A coordinate on the screen, in 1/256 pixel.
    fn coordinate(&mut self) -> i32 {
        self.0 = self
            .0
            .wrapping_mul(6364136223846793005)
            .wrapping_add(1442695040888963407);
        ((self.0 >> 33) % 262_144) as i32
    }

    fn point(&mut self) -> Option<Point> {
        let x = self.coordinate();
        Point::new(x, self.coordinate())
    }

    fn triangle(&mut self) -> Option<Tri> {
        Some(Tri::new(self.point()?, self.point()?, self.point()?))
    }
}

/// The column and the row of a block.
fn place(block: u32) -> (u32, u32)
    ensures column { result.0 < 512 }
    ensures row { result.1 < 512 }
{
    (block % COLUMNS, block / COLUMNS % COLUMNS)
}

fn border(alloc: Global, setup: &Setup, count: SampleCount) -> Result<Vec<u32>, AllocError> {
    let mut blocks = Vec::new(alloc);
    for block in 0..COLUMNS * COLUMNS {
        let (bx, by) = place(block);
        let class = setup.classify(bx, by, TileSide::T8, count);
        if class == Class::Mixed {
            blocks.push(block)?;
        }
    }
    Ok(blocks)
}

fn scenes(alloc: Global, count: SampleCount) -> Result<Vec<Scene>, AllocError> {
    let mut all = Vec::new(alloc);
    let mut random = Random(1);
    for _ in 0..TRIANGLES {
        if let Some(triangle) = random.triangle()
            && let Some(setup) = Setup::new(&triangle, Cull::None)
        {
            let border = border(alloc, &setup, count)?;
            all.push(Scene {
                triangle,
                setup,
                border,
            })?;
        }
    }
    Ok(all)
}

/// One plane of a block's masks, by the reference test at each sample.
fn plain_plane(triangle: &Tri, block: u32, s: u32, count: SampleCount) -> u64 {
    let (bx, by) = place(block);
    let mut plane = 0u64;
    if s < count.count() {
        for row in 0..8u32 {
            for column in 0..8u32 {
                let sample = sample_at(8 * bx + column, 8 * by + row, s, count);
                if triangle.covers(sample) {
                    plane |= 1 << (8 * row + column);
                }
            }
        }
    }
    plane
}

fn plain_masks(scene: &Scene, block: u32, count: SampleCount) -> Masks {
    let t = &scene.triangle;
    Masks {
        plane: [
            plain_plane(t, block, 0, count),
            plain_plane(t, block, 1, count),
            plain_plane(t, block, 2, count),
            plain_plane(t, block, 3, count),
        ],
    }
}

fn lane_masks(scene: &Scene, block: u32, count: SampleCount) -> Masks {
    let (bx, by) = place(block);
    scene.setup.masks(bx, by, count)
}

/// The masks of the mixed blocks of a square of 16 by 16 pixels.
fn masks_of_quarters(square: &Square, start: u64) -> u64
    requires { side_of square.now.side ≡ 16 }
{
    let mut sum = start;
    for q in 0..4u32 {
        let block = square.quarter(q);
        if block.class() == Class::Mixed {
            sum = joined(sum, &block.masks_of_part::<0>(0), block.bx(), block.by());
        }
    }
    sum
}

/// The masks of the mixed blocks of a triangle, found by cutting the mixed squares of 32 pixels into quarters and these
/// again.
fn masks_by_squares(scene: &Scene, count: SampleCount, start: u64) -> u64 {
    let mut sum = start;
    for block in 0..1024u32 {
        let whole = scene
            .setup
            .square(4 * (block % 32), 4 * (block / 32), TileSide::T32, count);
        if whole.class() == Class::Mixed {
            for q in 0..4u32 {
                let quarter = whole.quarter(q);
                if quarter.class() == Class::Mixed {
                    sum = masks_of_quarters(&quarter, sum);
                }
            }
        }
    }
    sum
}

/// A sum over blocks, in any order.
fn joined(sum: u64, masks: &Masks, bx: u32, by: u32) -> u64
    requires column { bx < 512 }
    requires row { by < 512 }
{
    let [a, b, c, d] = masks.plane;
    let word = a ^ b.rotate_left(16) ^ c.rotate_left(32) ^ d.rotate_left(48);
    sum.wrapping_add(word.wrapping_mul(u64::from(2 * (512 * by + bx) + 1)))
}

/// How masks are made.
#[derive(Clone, Copy)]
enum Method {
    Lanes,
    Squares,
    Plain,
}

fn checksum(all: &[Scene], method: Method, count: SampleCount, start: u64) -> u64 {
    let mut sum = start;
    for scene in all {
        sum = match method {
            Method::Squares => masks_by_squares(scene, count, sum),
            Method::Lanes | Method::Plain => masks_by_blocks(scene, method, count, sum),
        };
    }
    sum
}

/// The masks of the blocks on a triangle's border, row by row.
fn masks_by_blocks(scene: &Scene, method: Method, count: SampleCount, start: u64) -> u64 {
    let mut sum = start;
    for block in &scene.border {
        let masks = match method {
            Method::Plain => plain_masks(scene, *block, count),
            Method::Lanes | Method::Squares => lane_masks(scene, *block, count),
        };
        let (bx, by) = place(*block);
        sum = joined(sum, &masks, bx, by);
    }
    sum
}

/// How many of the blocks are of class Mixed, by cutting squares of 64 pixels into quarters.
fn mixed_by_quarters(all: &[Scene], count: SampleCount) -> u64 {
    let mut mixed = 0u64;
    for scene in all {
        for block in 0..256u32 {
            let whole = scene
                .setup
                .square(8 * (block % 16), 8 * (block / 16), TileSide::T64, count);
            for q in 0..4u32 {
                if whole.quarter(q).class() == Class::Mixed {
                    mixed = mixed.wrapping_add(1);
                }
            }
        }
    }
    mixed
}

fn blocks(all: &[Scene]) -> u64 {
    let mut sum = 0u64;
    for scene in all {
        sum = sum.wrapping_add(scene.border.len() as u64);
    }
    sum
}

/// The time per block, in tenths of a nanosecond.
fn tenths(nanos: u128, blocks: u64) -> u64 {
    let whole = u64::try_from(nanos).unwrap_or(0).wrapping_mul(10);
    if blocks == 0 { 0 } else { whole / blocks }
}

fn main(rt: HostRuntime) -> io::Result<()> {
    let mut timed = false;
    for word in env::args(&rt)? {
        timed |= word.as_str() == "--time";
    }
    for (samples, count) in [
        ("one sample", SampleCount::One),
        ("four samples", SampleCount::Four),
    ] {
        let all = scenes(rt.alloc(), count)?;
        let blocks = blocks(&all);
        println!(rt; "{samples}, {blocks} blocks")?;
        println!(rt;
            "{samples}, mixed quarters: {}",
            mixed_by_quarters(&all, count)
        )?;
        for (name, method) in [
            ("lanes", Method::Lanes),
            ("squares", Method::Squares),
            ("plain test", Method::Plain),
        ] {
            println!(rt;
                "{samples}, {name}: {:016x}",
                checksum(&all, method, count, 0)
            )?;
            if timed {
                let (mut least, mut sum) = (u64::MAX, 0u64);
                for _ in 0..ROUNDS {
                    let start = Instant::now(&rt)?;
                    sum = checksum(&all, method, count, sum);
                    least = least.min(tenths(start.elapsed(&rt)?.as_nanos(), blocks));
                }
                let (whole, tenth) = (least / 10, least % 10);
                println!(rt; "{samples}, {name}: {whole}.{tenth} ns a block ({sum:x})")?;
            }
        }
    }
    Ok(())
}
