//! Values at sixteen samples at the ends of what planes can be, compared with `floor_at`.
ghost use Rattle.std.specs.Prelude.{IsTrue, pos, ◌≤ℤ◌, ◌<ℤ◌};
ghost use Rattle.gradients.specs.Group.{IsGroupOnScreen};
ghost use Rattle.gradients.specs.Multiple.{IsSixteenth};

use crate::fixtures::{GREATEST, GREATEST_TURNED, everywhere, triangle};
use gradients::{ColourPlanes, ColourSlopes, Corrections, DepthPlane, Reciprocal, Slope};
use grid::Point;
use shade::{Blend, DepthTest, Merge, Placed, floor_at};
use std::process::Abort;

/// The last coordinates at which a group of two rows of eight pixels is on the screen.
pub(crate) const LAST: (i32, i32) = (1_046_752, 1_048_288);

fn is_column(x: i32) -> bool
    ensures { IsTrue result → (pos 0 ≤ℤ x) × (x <ℤ pos 1046784) }
{
    0 <= x && x < 1_046_784
}

fn is_row(y: i32) -> bool
    ensures { IsTrue result → (pos 0 ≤ℤ y) × (y <ℤ pos 1048320) }
{
    0 <= y && y < 1_048_320
}

fn is_sixteenth(z: i32) -> bool
    ensures { IsTrue result → IsSixteenth z }
{
    z.rem_euclid(16) == 0
}

/// Whether a group whose first sample is at (x, y) is on the screen.
pub(crate) fn is_on_screen(x: i32, y: i32) -> bool
    ensures { IsTrue result → IsGroupOnScreen (record { x = x; y = y }) }
{
    is_column(x) && is_row(y) && is_sixteenth(x) && is_sixteenth(y)
}

/// A triangle at these positions, with these depths and red; blue and alpha have the reds in other orders, and green is
/// flat.
fn placed(rt: &impl Abort, at: [(i32, i32); 3], z: [u16; 3], red: [u8; 3]) -> Placed {
    let [u, v, w] = red;
    let merge = Merge {
        test: DepthTest::Always,
        depth_write: true,
        write: [true, true, true],
        blend: Blend::OVER,
    };
    Placed {
        tri: triangle(rt, at),
        z,
        rgba: [[u, 7, u, w], [v, 7, u, u], [w, 7, v, v]],
        state: everywhere(merge),
    }
}

/// A channel at a covered point, by `floor_at`.
fn channel_at(rt: &impl Abort, t: &Placed, p: Point, number: usize) -> u16 {
    assert!(rt; number < 4);
    assert!(rt; t.tri.covers(p));
    let [a, b, c] = t.channel(number);
    floor_at(&t.tri, p, [u16::from(a), u16::from(b), u16::from(c)])
}

/// Corners moved to the left and upwards by the distance of (x, y) from the last multiple of a sixteenth of a pixel.
fn moved(at: [(i32, i32); 3], (x, y): (i32, i32)) -> [(i32, i32); 3] {
    let [a, b, c] = at;
    let (x, y) = (x.rem_euclid(16), y.rem_euclid(16));
    [
        (a.0.wrapping_sub(x), a.1.wrapping_sub(y)),
        (b.0.wrapping_sub(x), b.1.wrapping_sub(y)),
        (c.0.wrapping_sub(x), c.1.wrapping_sub(y)),
    ]
}

/// Whether a sample of the group is covered, and all values there are those of `floor_at`; `search` says whether whole
/// values are searched for. `None` if the triangle is too steep.
fn agrees_at(
    rt: &impl Abort,
    t: &Placed,
    search: bool,
    (x, y): (i32, i32),
    corrections: &mut Corrections,
) -> Option<bool> {
    assert!(rt; is_on_screen(x, y));
    assert!(rt; t.tri.area2() != 0);
    let reciprocal = Reciprocal::of(t.tri.area2().unsigned_abs());
    let slope = Slope::of(&t.tri, t.z);
    let slopes = ColourSlopes::of_used(true, t);
    if !slope.is_level(reciprocal, 48) || !slopes.are_level(reciprocal) {
        return None;
    }
    let depths = DepthPlane::new(&slope, reciprocal, search)
        .values(t, x, y, corrections)
        .to_array();
    let colours = ColourPlanes::new(&slopes, reciprocal, search).values(
        t,
        &t.state.merge,
        x,
        y,
        corrections,
    );
    let (reds, greens) = (colours.r.to_array(), colours.g.to_array());
    let (blues, alphas) = (colours.b.to_array(), colours.a.to_array());
    let mut met = false;
    for i in 0..16 {
        let column = 256 * (i % 8);
        let row = 256 * (i / 8);
        let p = Point::new(x.checked_add(column as i32)?, y.checked_add(row as i32)?)?;
        if t.tri.covers(p) {
            met = true;
            assert_eq!(rt; depths[i], floor_at(&t.tri, p, t.z), "depth of lane {i}");
            assert_eq!(rt; reds[i], channel_at(rt, t, p, 0), "red of lane {i}");
            assert_eq!(rt; greens[i], channel_at(rt, t, p, 1), "green of lane {i}");
            assert_eq!(rt; blues[i], channel_at(rt, t, p, 2), "blue of lane {i}");
            assert_eq!(rt; alphas[i], channel_at(rt, t, p, 3), "alpha of lane {i}");
        }
    }
    Some(met)
}

/// The same if whole values are searched for and if they are not, for a triangle with these depths and red at these
/// corners, which are moved with the group, so that it starts where samples lie.
fn agrees(
    rt: &impl Abort,
    at: [(i32, i32); 3],
    z: [u16; 3],
    red: [u8; 3],
    start: (i32, i32),
) -> Option<bool> {
    let t = placed(rt, moved(at, start), z, red);
    let from = (
        start.0.wrapping_sub(start.0.rem_euclid(16)),
        start.1.wrapping_sub(start.1.rem_euclid(16)),
    );
    let found = agrees_at(rt, &t, false, from, &mut Corrections::none());
    assert_eq!(rt;
        agrees_at(rt, &t, true, from, &mut Corrections::none()),
        found
    );
    found
}

#[test]
fn finds_values_of_the_greatest_area(rt: HostRuntime) {
    for at in [GREATEST, GREATEST_TURNED] {
        for (z, red) in [
            ([0, 65535, 65535], [0, 255, 255]),
            ([65535, 0, 0], [255, 0, 0]),
            ([0, 65535, 0], [0, 255, 0]),
            ([65535, 65535, 0], [255, 255, 0]),
            ([0, 0, 1], [0, 0, 1]),
            ([65535, 65534, 65535], [255, 254, 255]),
            ([65535, 65535, 65535], [255, 255, 255]),
        ] {
            for start in [(0, 0), (128, 128), (524_416, 524_320), LAST] {
                assert_eq!(rt; agrees(&rt, at, z, red, start), Some(true));
            }
        }
    }
}

// A value is x / 256, or 255 less x / 256.
#[test]
fn finds_whole_values_and_a_unit_beside_them(rt: HostRuntime) {
    let at = [(0, 0), (65_280, 0), (0, 65_280)];
    let reversed = [(0, 0), (0, 65_280), (65_280, 0)];
    for (x, y) in [
        (0, 0),
        (1, 0),
        (255, 0),
        (256, 1),
        (6_399, 511),
        (6_401, 257),
    ] {
        for (z, red) in [([0, 255, 0], [0, 255, 0]), ([255, 0, 255], [255, 0, 255])] {
            assert_eq!(rt; agrees(&rt, at, z, red, (x, y)), Some(true));
            assert_eq!(rt; agrees(&rt, reversed, z, red, (x, y)), Some(true));
        }
    }
}

// Next to the vertex a value is less than a unit of 2^-16 above or below an integer.
#[test]
fn finds_values_just_over_and_under_a_whole_number(rt: HostRuntime) {
    let at = [(0, 0), (8_388_607, 1), (1, 8_388_606)];
    for (z, red) in [
        ([1000, 1001, 1001], [100, 101, 101]),
        ([1000, 999, 999], [100, 99, 99]),
        ([1000, 1001, 999], [100, 101, 99]),
        ([1000, 999, 1001], [100, 99, 101]),
    ] {
        for start in [(1, 1), (2, 1), (1, 2), (128, 128), (127, 129)] {
            assert_eq!(rt; agrees(&rt, at, z, red, start), Some(true));
        }
    }
}

// A value grows by a third from pixel to pixel, so each third one is whole.
#[test]
fn raises_planes_of_whole_values(rt: HostRuntime) {
    let at = [(0, 0), (230_400, 0), (0, 76_800)];
    for (search, asks) in [(false, true), (true, false)] {
        let t = placed(&rt, at, [0, 300, 100], [0, 150, 100]);
        let mut corrections = Corrections::none();
        for start in [(128, 128), (2_176, 128), (4_224, 640)] {
            assert_eq!(rt;
                agrees_at(&rt, &t, search, start, &mut corrections),
                Some(true)
            );
        }
        assert_eq!(rt; corrections.ask_for_search(), asks);
        assert_eq!(rt; corrections.ask_for_search(), false);
    }
}

// The triangle is 1/256 pixel wide. A depth that grows by 32768 over that distance is too steep, and a channel that
// grows by 128.
#[test]
fn reports_what_is_too_steep(rt: HostRuntime) {
    let at = [(0, 0), (1, 0), (0, 65_536)];
    for (z, red, found) in [
        ([0, 32_767, 0], [0, 127, 0], Some(true)),
        ([32_767, 0, 32_767], [127, 0, 127], Some(true)),
        ([0, 32_768, 0], [0, 127, 0], None),
        ([32_768, 0, 32_768], [0, 0, 0], None),
        ([0, 0, 0], [0, 128, 0], None),
        ([0, 0, 0], [128, 0, 128], None),
    ] {
        assert_eq!(rt; agrees(&rt, at, z, red, (0, 0)), found);
    }
}
