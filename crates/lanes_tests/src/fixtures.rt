//! Points, triangles and states for the tests.
use grid::{Cull, PixelBox, Point, Tri};
use shade::{Merge, State};
use std::process::Abort;

/// The triangle of the greatest area that covers the screen.
pub(crate) const GREATEST: [(i32, i32); 3] = [
    (8_388_607, 8_388_607),
    (-8_388_608, 8_388_607),
    (8_388_607, -8_388_608),
];

/// The same with two corners exchanged, so in the other orientation.
pub(crate) const GREATEST_TURNED: [(i32, i32); 3] = [
    (8_388_607, 8_388_607),
    (8_388_607, -8_388_608),
    (-8_388_608, 8_388_607),
];

pub(crate) fn point(rt: &impl Abort, (x, y): (i32, i32)) -> Point {
    Point::new(x, y).expect(rt, "inside of the guard band")
}

pub(crate) fn triangle(rt: &impl Abort, corners: [(i32, i32); 3]) -> Tri {
    let [a, b, c] = corners;
    Tri::new(point(rt, a), point(rt, b), point(rt, c))
}

/// The state that merges in this way at each sample of each pixel, in both orientations.
pub(crate) fn everywhere(merge: Merge) -> State {
    State {
        merge,
        cull: Cull::None,
        sample_mask: 15,
        scissor: PixelBox {
            x0: 0,
            y0: 0,
            x1: 4096,
            y1: 4096,
        },
    }
}
