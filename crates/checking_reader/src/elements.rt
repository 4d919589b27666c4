//! The elements of an array of a draw, each read as what its array is of.
ghost use Rattle.std.specs.Prelude.{◌≡◌};
ghost use Rattle.serde_json.specs.View.{items_view};
ghost use Rattle.checking_reader.specs.Answer.{Reads};
ghost use Rattle.list_json.specs.Checks.{each};
ghost use Rattle.list_json.specs.Denotes.{Each};

use draw_list::ReadKind;
use serde_json::Value;
use std::alloc::Global;

/// Reads the elements of one kind of array.
pub(crate) trait ElementReader {
    ghost use Rattle.serde_json.specs.Data.{Data};
    ghost use Rattle.serde_json.specs.View.{view};
    ghost use Rattle.checking_reader.specs.Answer.{Answers};
    ghost use Rattle.list_json.specs.Checks.{KindChecks};

    /// What an element is read as.
    type Element: Drop;

    /// The checks of an element.
    ghost checks: { Self → Data → KindChecks };

    /// What the JSON value of an element denotes.
    ghost denotes: { Self → Data → Self.Element → Type 0 };

    /// Reads an element.
    fn read(&self, value: &Value) -> Result<Self::Element, ReadKind>
        ensures { Answers (checks self.now (view value.now)) (denotes self.now (view value.now)) result };
}

/// The elements of an array, in their order.
pub(crate) fn elements_of<R: ElementReader>(
    alloc: Global,
    list: &[Value],
    reader: &R,
) -> Result<Vec<R::Element>, ReadKind>
    ensures { let items = items_view list.now in
        Reads (each (R.checks reader.now) items) (λ found. Each (R.denotes reader.now) items found.items) result }
{
    let mut found = Vec::with_capacity(alloc, list.len())?;
    for value in list {
        found.push_reserved(reader.read(value)?);
    }
    Ok(found)
}
