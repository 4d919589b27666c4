//! The calls of `polygons`.
ghost use Rattle.std.specs.Prelude.{◌<◌, ◌≤◌, IfSome};

use crate::answer::{Answer, whole};
use crate::words::Words;
use grid::{Point, SampleCount};
use polygons::{
    Corner, Edge, Flags, Polygons, Rule, Runs, Strip, count_covering, cover_parts, polygon_covers,
};

/// As many corners as a ring of a line has at most.
const CORNERS: usize = 8;

/// The corners of a ring of a line.
#[derive(Drop)]
struct Ring {
    corners: [Point; CORNERS],
    count: usize,
    ghost few: { count ≤ 8 },
}

fn rule_of(words: &mut Words<'_>) -> Option<Rule> {
    match words.word()? {
        "even_odd" => Some(Rule::EvenOdd),
        "nonzero" => Some(Rule::NonZero),
        _ => None,
    }
}

/// The number of corners, and then each.
fn listed_ring(words: &mut Words<'_>) -> Option<Ring> {
    let count = words.number()? as usize;
    let mut corners = [Point::new(0, 0)?; CORNERS];
    if count > CORNERS {
        return None;
    }
    for corner in corners[..count].iter_mut() {
        *corner = words.point()?;
    }
    Some(Ring { corners, count })
}

pub(crate) fn ring_of(words: &mut Words<'_>) -> Option<Answer> {
    let (rule, ring) = (rule_of(words)?, listed_ring(words)?);
    let p = words.point()?;
    Some(Answer::Truth(polygon_covers(&[&ring.corners[..ring.count]], rule, p)))
}

pub(crate) fn rings_of(words: &mut Words<'_>) -> Option<Answer> {
    let rule = rule_of(words)?;
    let (first, second) = (listed_ring(words)?, listed_ring(words)?);
    let p = words.point()?;
    let rings = [
        &first.corners[..first.count],
        &second.corners[..second.count],
    ];
    Some(Answer::Truth(polygon_covers(&rings, rule, p)))
}

/// The two triangles on either side of the edge ab, and how many of them cover a point.
pub(crate) fn covering_of(words: &mut Words<'_>) -> Option<Answer> {
    let rule = rule_of(words)?;
    let (a, b) = (words.point()?, words.point()?);
    let (c, d) = (words.point()?, words.point()?);
    let p = words.point()?;
    let first = [Edge { a, b }, Edge { a: b, b: c }, Edge { a: c, b: a }];
    let second = [Edge { a: b, b: a }, Edge { a, b: d }, Edge { a: d, b }];
    Some(whole(u32::try_from(count_covering(&[&first, &second], rule, p)).ok()?))
}

/// The mask of one sample of the first block of a strip, by the even-odd rule.
pub(crate) fn strip_of(words: &mut Words<'_>) -> Option<Answer> {
    let (column, row) = (words.coordinate()?, words.coordinate()?);
    let ring = listed_ring(words)?;
    if column < -32_768 || 32_767 < column || row < -32_768 || 32_767 < row {
        return None;
    }
    let strip = Strip {
        column,
        row,
        count: SampleCount::One,
    };
    let mut corners = [Corner { x: 0, y: 0 }; CORNERS];
    for (k, corner) in corners[..ring.count].iter_mut().enumerate() {
        *corner = Corner {
            x: ring.corners[k].x(),
            y: ring.corners[k].y(),
        };
    }
    let ends = [u32::try_from(ring.count).ok()?];
    let polygons = Polygons::new(&corners[..ring.count], &ends, &[1], &[]).ok()?;
    if polygons.count() == 0 || !polygons.are_seen() {
        return None;
    }
    let rings = polygons.rings(0);
    let mut runs = Runs::none();
    runs.measure(&rings);
    let mut flags: [Flags; 1] = [[0; 32]];
    cover_parts(&mut flags, &mut [], Rule::EvenOdd, &rings, &runs, &strip, 1);
    Some(Answer::Mask(flags[0][0]))
}
