//! What a list that was read has, as text.
use grid::Tri;
use list::{DrawList, MOST_BYTES, State, read};
use shade::Blend;
use std::alloc::{AllocError, Global};

pub(crate) fn list_of(alloc: Global, text: &str) -> Option<DrawList> {
    let bytes = text.as_bytes();
    if bytes.len() > MOST_BYTES {
        return None;
    }
    read(alloc, bytes).ok()
}

/// Width, height, samples, output with its bytes a pixel, clear colour and depth, and how many triangles it draws.
pub(crate) fn head_of(alloc: Global, list: &DrawList) -> Result<String, AllocError> {
    let (width, height, count) = (list.width(), list.height(), list.count());
    let (output, clear) = (list.output(), list.clear());
    let (bytes, triangles) = (output.pixel_bytes(), list.triangles());
    let (r, g, b, z) = (clear.r, clear.g, clear.b, clear.z);
    format!(in alloc;
        "{width} {height} {count:?} {output:?} {bytes} [{r}, {g}, {b}] {z} {triangles}"
    )
}

/// The corners of a triangle.
pub(crate) fn corners_of(alloc: Global, tri: &Tri) -> Result<String, AllocError> {
    let ((ax, ay), (bx, by)) = ((tri.a.x(), tri.a.y()), (tri.b.x(), tri.b.y()));
    let (cx, cy) = (tri.c.x(), tri.c.y());
    format!(in alloc; "{ax} {ay}  {bx} {by}  {cx} {cy}")
}

/// Which triangles are culled, the depth test, whether depths are written, which channels are, whether it blends, the
/// sample mask and the scissor.
pub(crate) fn state_of(alloc: Global, state: &State) -> Result<String, AllocError> {
    let (cull, mask, scissor) = (state.cull, state.sample_mask, state.scissor);
    let (test, depth_write) = (state.merge.test, state.merge.depth_write);
    let (write, over) = (state.merge.write, state.merge.blend == Blend::OVER);
    let (x0, y0, x1, y1) = (scissor.x0, scissor.y0, scissor.x1, scissor.y1);
    format!(in alloc;
        "{cull:?} {test:?} {depth_write:?} {write:?} {over:?} {mask} {x0} {y0} {x1} {y1}"
    )
}
