//! Which samples a stroke covers: a path with a width, caps and joins.
//!
//! A stroke is the union of the segments, joins and caps of its path, each bounded by straight lines and circles. Which
//! side of a border owns the points on it follows from the top-left rule of Direct3D 11, so strokes fit triangles and
//! polygons. No position is rounded, and no circle is flattened: a point is compared with half the width by squares, or
//! by thresholds, which are whole numbers that take one square root for each border and none at a point.
#![tactic(auto)]

mod blocks;
mod border;
mod cap;
mod disc;
mod join;
mod laws;
mod line;
mod path_masks;
mod pen;
mod piece;
mod row_marks;
mod segment;
mod span;
mod stroke;
mod style;
#[cfg(test)]
mod tests;
mod tip;

pub use border::{line_bound, offset_bound, owns};
pub use cap::{Cap, cap_covers, dot_covers};
pub use disc::disc_covers;
pub use join::{Join, join_covers};
pub use laws::{reverse_covers, widened_covers};
pub use path_masks::mark_path;
pub use piece::Piece;
pub use segment::segment_covers;
pub use span::Span;
pub use stroke::covers;
pub use style::Style;
