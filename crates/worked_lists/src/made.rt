//! Lists that are made without a text, of which their maker says only whether they are within the limits.
use draw_list::{DEFAULT_CLEAR, DEFAULT_OUTPUT, DEFAULT_STATE, Target};
use grid::{Point, SampleCount};
use list::{Draw, DrawList, Primitives, Vertex};
use std::alloc::{AllocError, Global};

/// What comes of a list of this size with these draws.
fn made(
    alloc: Global,
    (width, height): (u32, u32),
    draws: Vec<Draw>,
) -> Result<String, AllocError> {
    let target = Target {
        width,
        height,
        count: SampleCount::Four,
        clear: DEFAULT_CLEAR,
        output: DEFAULT_OUTPUT,
    };
    match DrawList::new(alloc, target, draws) {
        Ok(list) => {
            let (width, height) = (list.width(), list.height());
            format!(in alloc; "{width} {height}")
        }
        Err(fault) => format!(in alloc; "{fault:?}"),
    }
}

/// What comes of a list of this size.
pub(crate) fn made_of(alloc: Global, width: u32, height: u32) -> Result<String, AllocError> {
    made(alloc, (width, height), Vec::new(alloc))
}

/// What comes of a list of one pixel with a quad of these indices, over the corners of a square, in order, and its
/// middle.
pub(crate) fn quad_of(alloc: Global, quad: [u32; 4]) -> Result<String, AllocError> {
    let mut vertices = Vec::new(alloc);
    for (x, y) in [(0, 0), (512, 0), (512, 512), (0, 512), (256, 256)] {
        if let Some(at) = Point::new(x, y) {
            vertices.push(Vertex {
                at,
                z: 0,
                rgba: [0, 0, 0, 255],
            })?;
        }
    }
    let draw = Draw {
        state: DEFAULT_STATE,
        vertices,
        primitives: Primitives::Quads(vec![in alloc; quad]?),
    };
    made(alloc, (1, 1), vec![in alloc; draw]?)
}
