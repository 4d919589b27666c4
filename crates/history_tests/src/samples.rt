use grid::{Cull, PixelBox, Point, SampleCount, Tri};
use history::{Event, Outcome, SampleHistory, SamplePlace, changes, events_of, samples_met};
use shade::{Blend, DepthTest, Merge, Placed, Sample, State, Stored};
use std::process::Abort;

const BLACK: Sample = Sample {
    r: 0,
    g: 0,
    b: 0,
    z: 1000,
};

const FIRST: SamplePlace = SamplePlace {
    count: SampleCount::One,
    px: 0,
    py: 0,
    s: 0,
};

/// A white triangle over the centres of pixels (0, 0), (2, 0) and (0, 2), with this depth at its vertices.
fn corner(rt: &impl Abort, depth: u16) -> Placed {
    Placed {
        tri: Tri::new(
            point(rt, 128, 128),
            point(rt, 640, 128),
            point(rt, 128, 640),
        ),
        z: [depth, depth, depth],
        rgba: [[255, 255, 255, 255]; 3],
        state: State {
            merge: Merge {
                test: DepthTest::Less,
                depth_write: true,
                write: [true, true, true],
                blend: Blend::NONE,
            },
            cull: Cull::None,
            sample_mask: 15,
            scissor: PixelBox {
                x0: 0,
                y0: 0,
                x1: 4,
                y1: 4,
            },
        },
    }
}

fn point(rt: &impl Abort, x: i32, y: i32) -> Point {
    Point::new(x, y).expect(rt, "inside of the guard band")
}

#[test]
fn follows_a_sample(rt: HostRuntime) {
    let triangles = [corner(&rt, 500), corner(&rt, 700), corner(&rt, 300)];
    let source = Stored {
        triangles: &triangles,
    };
    let mut history = SampleHistory::new(&source, FIRST, BLACK);
    let white = Sample {
        r: 255,
        g: 255,
        b: 255,
        z: 500,
    };
    let first = history.next().expect(&rt, "three triangles");
    assert_eq!(rt; (first.before, first.after), (BLACK, white));
    assert_eq!(rt; first.outcome, Outcome::Drawn);
    let second = history.next_covered().expect(&rt, "three triangles");
    assert_eq!(rt; second.outcome, Outcome::DepthFailed);
    assert_eq!(rt; second.after, white);
    let third = history.next_covered().expect(&rt, "three triangles");
    assert_eq!(rt; third.after.z, 300);
    assert!(rt; history.next().is_none());
    assert_eq!(rt; history.stored(), third.after);
    let mut events: [Event; 3] = [first, first, first];
    let end = events_of(&triangles, FIRST, BLACK, &mut events);
    assert_eq!(rt; end, third.after);
    assert_eq!(rt; (events[0], events[1]), (first, second));
    assert_eq!(rt; events[2], third);
    assert_eq!(rt; changes(&events), 2);
}

// Covered are the centres of pixels (0, 0), (1, 0) and (0, 1).
#[test]
fn counts_samples(rt: HostRuntime) {
    let triangle = corner(&rt, 5);
    assert!(rt; triangle.meets(SampleCount::One, 1, 0, 0));
    assert!(rt; !triangle.meets(SampleCount::One, 2, 0, 0));
    assert_eq!(rt; samples_met(&triangle, SampleCount::One, 4, 4), 3);
    assert_eq!(rt; samples_met(&triangle, SampleCount::One, 1, 4), 2);
}
