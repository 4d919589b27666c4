//! Depths of 24 bits at sixteen samples, compared with those at one, and these with values that Python worked out in
//! whole numbers.
use crate::fixtures::{GREATEST, GREATEST_TURNED, point, triangle};
use crate::random::Random;
use crate::values::{LAST, is_on_screen};
use deep_planes::{DeepPlane, depth_at};
use grid::{Point, Tri};
use std::process::Abort;

/// The middle of the screen.
const MIDDLE: (i32, i32) = (524_288, 524_288);

/// The last group on the screen that starts a group or less before a point.
fn group_before((x, y): (i32, i32)) -> (i32, i32) {
    (x.clamp(0, LAST.0) / 16 * 16, y.clamp(0, LAST.1) / 16 * 16)
}

/// How many samples of a group the triangle covers. At each the depth is that of `depth_at`.
fn agrees_at(rt: &impl Abort, t: &Tri, z: [u32; 3], (x, y): (i32, i32)) -> u32 {
    assert!(rt; is_on_screen(x, y));
    let depths = DeepPlane::new(t, z).values(x, y).to_array();
    let mut met = 0u32;
    for i in 0..16 {
        let (column, row) = (256 * (i % 8), 256 * (i / 8));
        let p = point(
            rt,
            (x.wrapping_add(column as i32), y.wrapping_add(row as i32)),
        );
        if t.covers(p) {
            met = met.wrapping_add(1);
            assert_eq!(rt;
                depths[i],
                depth_at(t, p, z),
                "depth of lane {i} of {t:?}, {z:?}, group {x}, {y}"
            );
        }
    }
    met
}

/// The depth at a covered point.
fn depth_of(rt: &impl Abort, at: [(i32, i32); 3], z: [u32; 3], p: (i32, i32)) -> u32 {
    let (t, p) = (triangle(rt, at), point(rt, p));
    assert!(rt; t.covers(p));
    depth_at(&t, p, z)
}

#[test]
fn divides_the_weighted_sum(rt: HostRuntime) {
    let small = [(0, 0), (3, 0), (0, 3)];
    let large = [(0, 0), (1_048_576, 0), (0, 1_048_576)];
    let most = u32::MAX;
    for (at, z, p, depth) in [
        (small, [most, 0, 0], (1, 1), 5_592_405),
        (small, [0, most, most], (1, 1), 11_184_810),
        (small, [1, 2, 1 << 31], (1, 1), 2_796_202),
        (
            GREATEST,
            [most - 1, most, 0x1234_5678],
            (128, 128),
            8_985_250,
        ),
        (large, [255, 256, 256], (524_287, 524_288), 0),
        (large, [most - 255, most, most], (100, 200), 16_777_215),
    ] {
        assert_eq!(rt; depth_of(&rt, at, z, p), depth);
    }
}

#[test]
fn agrees_in_the_greatest_triangles(rt: HostRuntime) {
    let mut random = Random { state: 1 };
    for at in [GREATEST, GREATEST_TURNED] {
        let t = triangle(&rt, at);
        for _ in 0..100 {
            let z = [random.depth(), random.depth(), random.depth()];
            let start = group_before(random.point(MIDDLE, 524_288));
            assert_eq!(rt; agrees_at(&rt, &t, z, start), 16);
        }
    }
}

#[test]
fn agrees_in_triangles_of_each_size(rt: HostRuntime) {
    let mut random = Random { state: 2 };
    for size in [40, 600, 5_000, 100_000, 8_388_607] {
        let mut met = 0u32;
        for _ in 0..500 {
            let a = random.point(MIDDLE, 500_000);
            let (b, c) = (random.point(a, size), random.point(a, size));
            let z = [random.depth(), random.depth(), random.depth()];
            let start = group_before(random.point(a, size.min(2_000)));
            met = met.wrapping_add(agrees_at(&rt, &triangle(&rt, [a, b, c]), z, start));
        }
        assert!(rt; met > 0);
    }
}

// A plane is up to 2^-5 of a vertex depth's unit too high. Next to the far side the depth is less than that below a whole
// one, so it has to be corrected.
#[test]
fn agrees_just_below_whole_depths(rt: HostRuntime) {
    let mut random = Random { state: 3 };
    let t = triangle(&rt, [(0, 0), (1_048_576, 0), (0, 1_048_576)]);
    for _ in 0..200 {
        let whole = (random.depth() / 256).max(1) * 256;
        let x = (random.next() % 1_000_000) as i32;
        for sum in [1_020_000, 1_035_000, 1_045_000] {
            let start = group_before((x, sum - x));
            assert!(rt; agrees_at(&rt, &t, [whole - 1, whole, whole], start) > 0);
        }
    }
}

// The triangle is 1/256 pixel wide. A depth that grows by 2^31 over that distance has no plane.
#[test]
fn agrees_in_steep_triangles(rt: HostRuntime) {
    let t = triangle(&rt, [(0, 0), (1, 0), (0, 65_536)]);
    let half = 1u32 << 31;
    for z in [
        [0, half - 1, 0],
        [0, half, 0],
        [half, 0, half],
        [u32::MAX, 0, 1],
    ] {
        assert_eq!(rt; agrees_at(&rt, &t, z, (0, 0)), 2);
    }
}
