//! Draw lists in JSON: the two readers behind one call, and what `draw_list` says of a draw list.
#![tactic(auto)]

mod reader;

pub use checking_reader::read_by_value;
pub use draw_list::{
    Draw, DrawList, ListFault, MOST_BYTES, Output, Placed, Primitives, ReadFault, ReadKind,
    RowSpan, State, Target, Vertex, depth_bytes,
};
pub use fast_reader::read_in_one_pass;
pub use reader::read;
