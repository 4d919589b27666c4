//! The calls of `shade`.
ghost use Rattle.std.specs.Prelude.{IfSome};
ghost use Rattle.grid.specs.Triangle.{Covers};

use crate::answer::{Answer, whole};
use crate::words::Words;
use grid::{Point, Tri};
use shade::{
    Blend, MAX_SAMPLES, Merge, Row, Sample, Weights, apply, floor_at, over, passes, resolved_colour,
};

/// A triangle and a point that it covers.
fn covered(words: &mut Words<'_>) -> Option<(Tri, Point)>
    ensures { IfSome result (λ it. Covers it.0.a it.0.b it.0.c it.1) }
{
    let (t, p) = (words.triangle()?, words.point()?);
    t.covers(p).then_some((t, p))
}

pub(crate) fn value_of(words: &mut Words<'_>) -> Option<Answer> {
    let (t, p) = covered(words)?;
    let value = floor_at(&t, p, words.values()?);
    Some(whole(u32::from(value)))
}

pub(crate) fn weighted_of(words: &mut Words<'_>) -> Option<Answer> {
    let (t, p) = covered(words)?;
    let value = Weights::at(&t, p).value(words.values()?);
    Some(whole(u32::from(value)))
}

pub(crate) fn channel_of(words: &mut Words<'_>) -> Option<Answer> {
    let (t, p) = covered(words)?;
    let v = [words.byte()?, words.byte()?, words.byte()?];
    Some(whole(u32::from(Weights::at(&t, p).channel(v))))
}

/// The value at the pixel that a number of steps to the right of a point reaches, and whether all pixels on the way have
/// it too. Returns `None` if the triangle does not cover all of them.
fn stepped(t: &Tri, at: Point, v: [u16; 3], steps: u32) -> Option<(u16, bool)> {
    let mut p = at;
    if !t.covers(p) {
        return None;
    }
    let mut row = Row::start(t, p, v);
    let first = row.value();
    let mut is_uniform = true;
    for _ in 0..steps {
        let Some(next) = Point::new(p.x() + 256, p.y()) else {
            return None;
        };
        if !t.covers(next) {
            return None;
        }
        row.step();
        is_uniform &= row.value() == first;
        p = next;
    }
    Some((row.value(), is_uniform))
}

pub(crate) fn row_of(words: &mut Words<'_>) -> Option<Answer> {
    let (t, p, v) = (words.triangle()?, words.point()?, words.values()?);
    let (value, _) = stepped(&t, p, v, words.number()?)?;
    Some(whole(u32::from(value)))
}

/// The value of a row of pixels, or `None` if they have several.
pub(crate) fn uniform_row_of(words: &mut Words<'_>) -> Option<Answer> {
    let (t, p, v) = (words.triangle()?, words.point()?, words.values()?);
    let (value, is_uniform) = stepped(&t, p, v, words.number()?)?;
    is_uniform.then_some(whole(u32::from(value)))
}

pub(crate) fn passes_of(words: &mut Words<'_>) -> Option<Answer> {
    let (test, new, old) = (words.depth_test()?, words.value()?, words.value()?);
    Some(Answer::Truth(passes(test, new, old)))
}

pub(crate) fn over_of(words: &mut Words<'_>) -> Option<Answer> {
    let (s, a, d) = (words.byte()?, words.byte()?, words.byte()?);
    Some(whole(u32::from(over(s, a, d))))
}

pub(crate) fn blended_of(words: &mut Words<'_>) -> Option<Answer> {
    let (equation, channel) = (words.equation()?, words.colour_or_alpha()?);
    let value = equation.blended(channel, &words.operands()?);
    Some(whole(u32::from(value)))
}

/// The mean of a channel over the samples of a pixel: of red, beside which the others are the same at each sample.
pub(crate) fn mean_of(words: &mut Words<'_>) -> Option<Answer> {
    let count = words.samples()?;
    let mut samples = [Sample {
        r: 0,
        g: 0,
        b: 255,
        z: 0,
    }; MAX_SAMPLES];
    for s in 0..count.count() {
        samples[s as usize].r = words.byte()?;
    }
    match resolved_colour(&samples, count) {
        [mean, 0, 255] => Some(whole(u32::from(mean))),
        _ => None,
    }
}

/// The colour of a pixel by its first sample and by what all others are.
pub(crate) fn resolved_of(words: &mut Words<'_>) -> Option<Answer> {
    let count = words.samples()?;
    let first = words.sample()?;
    let mut samples = [words.sample()?; MAX_SAMPLES];
    samples[0] = first;
    let [r, g, b] = resolved_colour(&samples, count);
    Some(Answer::Colour(r, g, b))
}

pub(crate) fn apply_of(words: &mut Words<'_>) -> Option<Answer> {
    let (test, depth_write, over) = (words.depth_test()?, words.truth()?, words.truth()?);
    let write = [words.truth()?, words.truth()?, words.truth()?];
    let merge = Merge {
        test,
        depth_write,
        write,
        blend: if over { Blend::OVER } else { Blend::NONE },
    };
    let new = words.shaded()?;
    Some(Answer::Stored(apply(&merge, &new, words.sample()?)))
}
