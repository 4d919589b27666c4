//! The calls of `grid`.
use crate::answer::{Answer, place, whole};
use crate::words::Words;
use grid::{Point, covers_at_seam, sample_at, side};

pub(crate) fn point_of(words: &mut Words<'_>) -> Option<Answer> {
    let (x, y) = (words.coordinate()?, words.coordinate()?);
    Some(match Point::new(x, y) {
        Some(p) => place(p),
        None => Answer::Nothing,
    })
}

pub(crate) fn sample_of(words: &mut Words<'_>) -> Option<Answer> {
    let (px, py) = (words.number()?, words.number()?);
    let (s, count) = (words.number()?, words.samples()?);
    if px < 4096 && py < 4096 && s < count.count() {
        Some(place(sample_at(px, py, s, count)))
    } else {
        None
    }
}

pub(crate) fn count_of(words: &mut Words<'_>) -> Option<Answer> {
    Some(whole(words.samples()?.count()))
}

pub(crate) fn parts_of(words: &mut Words<'_>) -> Option<Answer> {
    let count = words.samples()?;
    Some(Answer::Place(i64::from(count.parts()), i64::from(count.part_size())))
}

pub(crate) fn tile_of(words: &mut Words<'_>) -> Option<Answer> {
    Some(whole(words.tile_side()?.pixels()))
}

pub(crate) fn has_of(words: &mut Words<'_>) -> Option<Answer> {
    let pixels = words.rectangle()?;
    Some(Answer::Truth(pixels.has(words.number()?, words.number()?)))
}

pub(crate) fn side_of(words: &mut Words<'_>) -> Option<Answer> {
    let (a, b, p) = (words.point()?, words.point()?, words.point()?);
    Some(Answer::Whole(side(a, b, p)))
}

pub(crate) fn area2_of(words: &mut Words<'_>) -> Option<Answer> {
    Some(Answer::Whole(words.triangle()?.area2()))
}

pub(crate) fn covers_of(words: &mut Words<'_>) -> Option<Answer> {
    let (t, p) = (words.triangle()?, words.point()?);
    Some(Answer::Truth(t.covers(p)))
}

pub(crate) fn covers_at_seam_of(words: &mut Words<'_>) -> Option<Answer> {
    let (a, b) = (words.point()?, words.point()?);
    let (c, d) = (words.point()?, words.point()?);
    let (first, second) = covers_at_seam(a, b, c, d, words.point()?);
    Some(Answer::Truths(first, second))
}

pub(crate) fn drops_of(words: &mut Words<'_>) -> Option<Answer> {
    let (cull, area2) = (words.cull()?, words.whole()?);
    Some(Answer::Truth(cull.drops(area2)))
}

pub(crate) fn quad_covers_of(words: &mut Words<'_>) -> Option<Answer> {
    let quad = words.quad()?;
    let p = words.point()?;
    Some(match quad {
        Some(quad) => Answer::Truth(quad.covers(p)),
        None => Answer::Nothing,
    })
}

pub(crate) fn is_clockwise_of(words: &mut Words<'_>) -> Option<Answer> {
    Some(match words.quad()? {
        Some(quad) => Answer::Truth(quad.is_clockwise()),
        None => Answer::Nothing,
    })
}

pub(crate) fn turned_of(words: &mut Words<'_>) -> Option<Answer> {
    Some(Answer::Corners(words.quad()??.turned()))
}

pub(crate) fn reversed_of(words: &mut Words<'_>) -> Option<Answer> {
    Some(Answer::Corners(words.quad()??.reversed()))
}
