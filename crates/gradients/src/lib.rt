//! Values of a triangle at sixteen samples by planes: slopes, gradients by a reciprocal, planes modulo 2^64, candidates
//! and their correction.
#![tactic(auto)]

mod attribute_plane;
mod candidates;
mod colour_planes;
mod correction;
mod corrections;
mod depth_plane;
mod plane;
mod reciprocal;
mod slope;
mod whole_values;

pub use colour_planes::{ColourPlanes, ColourSlopes, Colours};
pub use corrections::Corrections;
pub use depth_plane::DepthPlane;
pub use reciprocal::Reciprocal;
pub use slope::Slope;
