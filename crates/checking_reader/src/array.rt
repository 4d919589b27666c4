ghost use Rattle.std.specs.Prelude.{◌≡◌, ◌≤◌, true, false, length, Some, IfOk, MatchResult};
ghost use Rattle.draw_list.specs.declared.fault.ReadKind.TheVariants.{WrongKind};
ghost use Rattle.serde_json.specs.View.{view, items_view};
ghost use Rattle.list_json.specs.Json.{elements, count};
ghost use Rattle.checking_reader.specs.Answer.{Answers};
ghost use Rattle.list_json.specs.Checks.{array_checks, has_length};

use draw_list::ReadKind;
use serde_json::Value;

/// An error unless the value is an array of exactly `count` elements.
#[tactic(auto, using(crate::proofs::ArrayElements::items_len_view))]
pub(crate) fn check_length(value: &Value, count: usize) -> Result<(), ReadKind>
    ensures { let has = has_length count (Some (view value.now)) in
        MatchResult result (λ done. has ≡ true) (λ kind. (has ≡ false) × (kind ≡ WrongKind)) }
{
    match value.as_array() {
        Some(list) if list.len() == count => Ok(()),
        _ => Err(ReadKind::WrongKind),
    }
}

/// The elements of an array of at most `most` of them.
#[tactic(auto, using(crate::proofs::ArrayElements::items_len_view))]
pub(crate) fn array_of(value: &Value, most: usize) -> Result<&[Value], ReadKind>
    ensures reported { let seen = Some (view value.now) in
        Answers (array_checks most seen) (λ list. items_view list.now ≡ elements seen) result }
    ensures at_most { IfOk result (λ list. length list.now ≤ most) }
    ensures count { IfOk result (λ list. length list.now ≡ count (Some (view value.now))) }
{
    let Some(list) = value.as_array() else {
        return Err(ReadKind::WrongKind);
    };
    if list.len() > most {
        return Err(ReadKind::TooMany);
    }
    Ok(list.as_slice())
}
