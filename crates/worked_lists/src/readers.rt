//! The two readers of a list, one compared with the other.
use list::{DrawList, MOST_BYTES, read, read_by_value, read_in_one_pass};
use std::alloc::{AllocError, Global};

/// The text with each `@COUNT@PART@` in it written out: the part, `COUNT` times.
fn expanded(alloc: Global, text: &str) -> Result<String, AllocError> {
    let (mut all, mut count) = (String::new(alloc), 0u32);
    for (number, piece) in text.split('@').enumerate() {
        match number % 3 {
            0 => all.push_str(piece)?,
            1 => count = piece.parse::<u32>().unwrap_or(0),
            _ => {
                for _ in 0..count {
                    all.push_str(piece)?;
                }
            }
        }
    }
    Ok(all)
}

fn have_same_head(one: &DrawList, other: &DrawList) -> bool {
    one.width() == other.width()
        && one.height() == other.height()
        && one.count() == other.count()
        && one.output() == other.output()
        && one.clear() == other.clear()
}

fn are_same(one: &DrawList, other: &DrawList) -> bool {
    if !have_same_head(one, other) || one.triangles() != other.triangles() {
        return false;
    }
    for number in 0..one.triangles().min(other.triangles()) {
        if one.triangle(number) != other.triangle(number)
            || one.rows(number) != other.rows(number)
        {
            return false;
        }
    }
    true
}

/// Which reader reads the text: `both` the same list, `left` is one that one pass leaves to the other reader, `none`
/// one that neither reads, and neither does `read`. The list that `read` returns is that of the value.
pub(crate) fn kind_of(alloc: Global, text: &str) -> Result<&'static str, AllocError> {
    let text = expanded(alloc, text)?;
    let bytes = text.as_bytes();
    if bytes.len() > MOST_BYTES {
        return Ok("long");
    }
    let (fast, read) = (read_in_one_pass(alloc, bytes), read(alloc, bytes));
    let Ok(value) = read_by_value(alloc, bytes) else {
        let is_none = fast.is_none() && read.is_err();
        return Ok(if is_none { "none" } else { "other" });
    };
    let Ok(read) = read else {
        return Ok("other");
    };
    if !are_same(&read, &value) {
        return Ok("other");
    }
    let Some(fast) = fast else {
        return Ok("left");
    };
    Ok(if are_same(&fast, &value) {
        "both"
    } else {
        "other"
    })
}
