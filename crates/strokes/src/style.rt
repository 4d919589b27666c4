use crate::cap::Cap;
use crate::join::Join;

/// How a path is stroked.
#[derive(Clone, Copy, Debug, PartialEq, Eq)]
pub struct Style {
    /// The width in 1/256 pixel, at most 4,096 pixels.
    pub width: u32,
    pub cap: Cap,
    pub join: Join,
    /// Whether the path goes on from its last point to its first, with joins in place of caps.
    pub is_closed: bool,
}
