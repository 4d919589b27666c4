//! The arrays of a draw, each element taken as what its array is of.
ghost use Rattle.std.specs.Prelude.{suc, IfSome, Some};
ghost use Rattle.list_json.specs.Denotes.{IsArrayOf};
ghost use Rattle.fast_reader.specs.Took.{Took};

use crate::array::take_begin_array;
use json_tokens::Cursor;
use std::alloc::Global;

/// Takes the elements of one kind of array.
pub(crate) trait ElementReader {
    ghost use Rattle.std.specs.Prelude.{ℕ};
    ghost use Rattle.serde_json.specs.Data.{Data};

    /// What an element is taken as.
    type Element: Drop;

    /// How deep the JSON value of an element nests.
    ghost levels: { ℕ };

    /// What the JSON value of an element denotes.
    ghost denotes: { Self → Data → Self.Element → Type 0 };

    /// Takes an element.
    fn take(&self, reader: &mut Cursor<'_>) -> Option<Self::Element>
        ensures { IfSome result (λ found. Took levels (denotes self.now) reader.old found reader.new) };
}

/// Takes an array of at most `most` elements.
pub(crate) fn take_array<R: ElementReader>(
    alloc: Global,
    reader: &mut Cursor<'_>,
    most: usize,
    elements: &R,
) -> Option<Vec<R::Element>>
    ensures { IfSome result (λ found. Took (suc R.levels) (λ d xs. IsArrayOf most (R.denotes elements.now) (Some d) xs)
        reader.old found.items reader.new) }
{
    if !take_begin_array(reader) {
        return None;
    }
    let mut found = Vec::new(alloc);
    'elements: while !reader.take_end_array() {
        if found.len() >= most {
            return None;
        }
        let element = elements.take(reader)?;
        if found.push(element).is_err() {
            return None;
        }
    }
    found.shrink_to_fit();
    Some(found)
}
