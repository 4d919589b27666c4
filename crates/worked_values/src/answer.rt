//! What a call gives, and whether words say it.
use crate::words::Words;
use cover::{Class, Masks};
use grid::{PixelBox, Point, Quad, TileSide};
use shade::Sample;

/// What a call gives.
#[derive(Clone, Copy)]
pub(crate) enum Answer {
    Whole(i64),
    Place(i64, i64),
    Truth(bool),
    Truths(bool, bool),
    Stored(Sample),
    Colour(u8, u8, u8),
    Rectangle(PixelBox),
    /// The word of one sample.
    Mask(u64),
    /// The number of samples, and their words; those of the others are zero.
    Covered(u32, Masks),
    /// The number of samples, and the words of each of two triangles.
    BothCovered(u32, Masks, Masks),
    Classed(Class),
    /// A square's column and row in blocks, its size and its class.
    Square(u32, u32, TileSide, Class),
    /// The corners of a quad.
    Corners(Quad),
    Nothing,
}

pub(crate) fn whole(number: u32) -> Answer {
    Answer::Whole(i64::from(number))
}

pub(crate) fn place(p: Point) -> Answer {
    Answer::Place(i64::from(p.x()), i64::from(p.y()))
}

fn class_of(words: &mut Words<'_>) -> Option<Class> {
    match words.word()? {
        "out" => Some(Class::Out),
        "all" => Some(Class::All),
        "mixed" => Some(Class::Mixed),
        _ => None,
    }
}

fn says_colour(words: &mut Words<'_>, [r, g, b]: [u8; 3]) -> bool {
    words.byte() == Some(r) && words.byte() == Some(g) && words.byte() == Some(b)
}

fn says_masks(words: &mut Words<'_>, samples: u32, masks: &Masks) -> bool {
    for s in 0..4u32 {
        let expected = if s < samples {
            words.hexadecimal()
        } else {
            Some(0)
        };
        if expected != Some(masks.plane[s as usize]) {
            return false;
        }
    }
    true
}

fn says_corners(words: &mut Words<'_>, quad: &Quad) -> bool {
    let (a, b, c, d) = quad.corners();
    words.point() == Some(a)
        && words.point() == Some(b)
        && words.point() == Some(c)
        && words.point() == Some(d)
}

fn says_square(words: &mut Words<'_>, at: (u32, u32), side: TileSide, class: Class) -> bool {
    words.number() == Some(at.0)
        && words.number() == Some(at.1)
        && words.tile_side() == Some(side)
        && class_of(words) == Some(class)
}

impl Answer {
    /// Whether the next words say this answer.
    pub(crate) fn is_said(&self, words: &mut Words<'_>) -> bool {
        match self {
            Answer::Whole(n) => words.whole() == Some(*n),
            Answer::Place(x, y) => words.whole() == Some(*x) && words.whole() == Some(*y),
            Answer::Truth(it) => words.truth() == Some(*it),
            Answer::Truths(a, b) => words.truth() == Some(*a) && words.truth() == Some(*b),
            Answer::Stored(it) => words.sample() == Some(*it),
            Answer::Colour(r, g, b) => says_colour(words, [*r, *g, *b]),
            Answer::Rectangle(it) => words.rectangle() == Some(*it),
            Answer::Mask(it) => words.hexadecimal() == Some(*it),
            Answer::Covered(samples, masks) => says_masks(words, *samples, masks),
            Answer::BothCovered(samples, first, second) => {
                says_masks(words, *samples, first) && says_masks(words, *samples, second)
            }
            Answer::Classed(it) => class_of(words) == Some(*it),
            Answer::Square(bx, by, side, class) => says_square(words, (*bx, *by), *side, *class),
            Answer::Corners(quad) => says_corners(words, quad),
            Answer::Nothing => words.word() == Some("nothing"),
        }
    }
}
