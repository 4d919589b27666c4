//! Masks of paths, compared with the definition sample by sample.
ghost use Rattle.std.specs.Prelude.{◌≡◌};
ghost use Rattle.strokes.specs.Stroke.{IsStyle};

use crate::{Cap, Join, Style, covers, mark_path};
use grid::{Point, SampleCount};
use polygons::Strip;
use std::process::Abort;

/// The point at these coordinates.
fn point(rt: &impl Abort, x: i32, y: i32) -> Point {
    Point::new(x, y).expect(rt, "a point of the guard band")
}

/// Whether a sample of a strip of two columns of blocks is marked, and whether each is exactly if the stroke covers it.
fn marked(rt: &impl Abort, path: &[Point], style: Style, count: SampleCount) -> (bool, bool)
    requires { IsStyle style }
{
    let strip = Strip {
        column: -2,
        row: -3,
        count,
    };
    let mut flags = [[0; 32]; 8];
    mark_path(&mut flags, path, style, &strip, 2);
    let mut has_marked = false;
    let mut is_right = true;
    for s in 0..count.count() {
        let start = strip.start(s);
        for row in 0..64 {
            for k in 0..16 {
                let p = point(rt, start.x() + 256 * k as i32, start.y() + 256 * row as i32);
                let word = flags[2 * (s as usize / 4) + k / 8][4 * (row / 8) + s as usize % 4];
                let is_marked = word >> (8 * (row % 8) + k % 8) & 1 == 1;
                has_marked |= is_marked;
                is_right &= is_marked == covers(path, style, p);
            }
        }
    }
    (has_marked, is_right)
}

/// A path with two sharp turns and two repeated points.
fn zigzag(rt: &impl Abort) -> [Point; 6] {
    [
        point(rt, 300, 500),
        point(rt, 300, 500),
        point(rt, 3000, 900),
        point(rt, 1100, 4000),
        point(rt, 1100, 4000),
        point(rt, 2500, 9000),
    ]
}

fn style(width: u32, cap: Cap, join: Join, is_closed: bool) -> Style
    ensures { result ≡ record { width = width; cap = cap; join = join; is_closed = is_closed } }
{
    Style {
        width,
        cap,
        join,
        is_closed,
    }
}

#[test]
fn marks_open_paths(rt: HostRuntime) {
    let path = zigzag(&rt);
    let (has_marked, is_right) = marked(
        &rt,
        &path,
        style(700, Cap::Square, Join::Miter(128), false),
        SampleCount::Four,
    );
    assert!(rt; is_right);
    assert!(rt; has_marked);
}

#[test]
fn marks_closed_paths(rt: HostRuntime) {
    let path = zigzag(&rt);
    let (has_marked, is_right) = marked(
        &rt,
        &path,
        style(300, Cap::Butt, Join::Round, true),
        SampleCount::Two,
    );
    assert!(rt; is_right);
    assert!(rt; has_marked);
}

#[test]
fn marks_paths_of_one_point(rt: HostRuntime) {
    let path = zigzag(&rt);
    for cap in [Cap::Butt, Cap::Round, Cap::Square] {
        let (_, is_right) = marked(
            &rt,
            &path[..2],
            style(1000, cap, Join::Round, false),
            SampleCount::One,
        );
        assert!(rt; is_right);
    }
}

#[test]
fn marks_sixteen_samples(rt: HostRuntime) {
    let path = zigzag(&rt);
    let (has_marked, is_right) = marked(
        &rt,
        &path[..3],
        style(400, Cap::Round, Join::Round, false),
        SampleCount::Sixteen,
    );
    assert!(rt; is_right);
    assert!(rt; has_marked);
}
