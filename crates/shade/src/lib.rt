//! Values at covered points, depth tests, blending, the step of one sample, and its resolve.
#![tactic(auto)]

mod blend;
mod blend_laws;
mod depth;
mod equation;
mod factor;
mod gradient;
mod known;
mod merging;
mod operands;
mod placed;
mod resolve;
mod row;
mod sample;
mod source;
mod state;
mod step;
mod value;
mod weights;

pub use blend::{Blend, over};
pub use blend_laws::{
    add_by_alpha_is_blended, add_is_blended, is_clamped, is_determined, keep_is_blended,
    lists_are_blended, multiply_is_blended, over_is_blended, premultiplied_is_blended,
    replace_is_blended,
};
pub use depth::DepthTest;
pub use equation::{BlendOperation, Equation};
pub use factor::BlendFactor;
pub use gradient::Gradient;
pub use known::KnownEquation;
pub use merging::{apply, apply_on_canvas, passes};
pub use operands::{Channel, Operands};
pub use placed::Placed;
pub use resolve::{MAX_SAMPLES, resolved_colour};
pub use row::Row;
pub use sample::{CanvasSample, Merge, Sample, Shaded};
pub use source::{Chunk, Stored, Triangles};
pub use state::State;
pub use value::floor_at;
pub use weights::Weights;
