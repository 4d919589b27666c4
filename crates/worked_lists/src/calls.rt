//! The calls of a line, and whether they give what the line says.
ghost use Rattle.std.specs.Prelude.{◌<◌, length};

use crate::binned::{agree_by_rows, are_exact, bins_of};
use crate::lists::{corners_of, head_of, list_of, state_of};
use crate::made::{made_of, quad_of};
use crate::readers::kind_of;
use bins::Tiling;
use grid::TileSide;
use list::DrawList;
use std::alloc::{AllocError, Global};

/// The tiles of the size that a word names, over a list's picture.
fn tiling_of(list: &DrawList, word: &str) -> Option<Tiling> {
    let side = match word {
        "T8" => TileSide::T8,
        "T16" => TileSide::T16,
        "T32" => TileSide::T32,
        "T64" => TileSide::T64,
        _ => return None,
    };
    Some(Tiling::new(list.width(), list.height(), side))
}

fn number_of(word: Option<&str>) -> Option<u32> {
    word?.parse::<u32>().ok()
}

/// What `new` and `quad` give.
fn made_by(alloc: Global, name: &str, numbers: &str) -> Result<Option<String>, AllocError> {
    let mut words = numbers.split_whitespace();
    let (Some(a), Some(b)) = (number_of(words.next()), number_of(words.next())) else {
        return Ok(None);
    };
    match (name, number_of(words.next()), number_of(words.next())) {
        ("new", None, None) => Ok(Some(made_of(alloc, a, b)?)),
        ("quad", Some(c), Some(d)) => Ok(Some(quad_of(alloc, [a, b, c, d])?)),
        _ => Ok(None),
    }
}

/// What a call gives of the triangle of this number: also its depths and colours at the corners, and the rows of pixels
/// that it may reach, the first, and the one after the last.
fn of_triangle(
    alloc: Global,
    name: &str,
    list: &DrawList,
    number: usize,
) -> Result<Option<String>, AllocError>
    requires { number < length list.now.triangles }
{
    let (placed, rows) = (list.triangle(number), list.rows(number));
    Ok(match name {
        "corners" => Some(corners_of(alloc, &placed.tri)?),
        "values" => Some(format!(in alloc; "{:?} {:?}", placed.z, placed.rgba)?),
        "state" => Some(state_of(alloc, &placed.state)?),
        "rows" => Some(format!(in alloc; "{} {}", rows.first, rows.end)?),
        _ => None,
    })
}

/// What a call gives of a list.
fn given_of(
    alloc: Global,
    name: &str,
    word: &str,
    list: &DrawList,
) -> Result<Option<String>, AllocError> {
    if name == "head" {
        return Ok(Some(head_of(alloc, list)?));
    }
    if name == "bins" {
        return match tiling_of(list, word) {
            Some(tiling) => Ok(Some(bins_of(alloc, list, &tiling)?)),
            None => Ok(None),
        };
    }
    match word.parse::<usize>() {
        Ok(number) if number < list.triangles() => of_triangle(alloc, name, list, number),
        _ => Ok(None),
    }
}

/// What a call gives, or `None` if there is no such call. All but `head` have a word before the list.
fn given(alloc: Global, name: &str, words: &str) -> Result<Option<String>, AllocError> {
    let (word, text) = match words.split_once(' ') {
        Some(parts) if name != "head" => parts,
        _ => ("", words),
    };
    let Some(list) = list_of(alloc, text) else {
        return Ok(None);
    };
    given_of(alloc, name, word, &list)
}

/// Whether the bins of the list are exact for tiles of this size.
fn has_exact_bins(alloc: Global, words: &str) -> Option<bool> {
    let (word, text) = words.split_once(' ')?;
    let list = list_of(alloc, text)?;
    are_exact(alloc, &list, &tiling_of(&list, word)?).ok()
}

/// Whether the bins of the list agree by rows.
fn has_bins_by_rows(alloc: Global, text: &str) -> Option<bool> {
    agree_by_rows(alloc, &list_of(alloc, text)?).ok()
}

/// Whether a call gives this text.
fn gives(alloc: Global, name: &str, words: &str, wanted: &str) -> Result<bool, AllocError> {
    let given = match name {
        "new" | "quad" => made_by(alloc, name, words)?,
        _ => given(alloc, name, words)?,
    };
    Ok(match given {
        Some(text) => text.as_str() == wanted,
        None => false,
    })
}

/// Whether the line is a call with what it gives.
pub(crate) fn holds(alloc: Global, line: &str) -> Result<bool, AllocError> {
    let Some((name, words)) = line.split_once(' ') else {
        return Ok(false);
    };
    match name {
        "exact" => return Ok(has_exact_bins(alloc, words) == Some(true)),
        "by_rows" => return Ok(has_bins_by_rows(alloc, words) == Some(true)),
        _ => {}
    }
    match words.split_once(" = ") {
        Some((call, wanted)) => gives(alloc, name, call, wanted),
        None => Ok(kind_of(alloc, words)? == name),
    }
}
