use draw_list::TrianglePlace;
use history::Event;

/// What a triangle of a draw list did to a sample, and why.
#[derive(Clone, Copy, Debug, PartialEq, Eq)]
pub struct ListEvent {
    /// The triangle's number in draw order, from 0.
    pub number: usize,
    /// Its draw, and its number in the draw.
    pub place: TrianglePlace,
    /// Which of red, green and blue its draw writes.
    pub write: [bool; 3],
    /// Whether its draw writes depths.
    pub depth_write: bool,
    /// What the triangle did, and why.
    pub event: Event,
}
