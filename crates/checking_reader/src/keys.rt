ghost use Rattle.std.specs.Prelude.{◌≡◌, [], ◌∷◌, false, map, not, is_none, IsSome, bytes_eq, string_bytes};
ghost use Rattle.std.specs.BTreeMap.{keys};
ghost use Rattle.std.specs.List.{list_any};
ghost use Rattle.serde_json.specs.Find.{as_object};
ghost use Rattle.serde_json.specs.View.{view};
ghost use Rattle.draw_list.specs.declared.fault.ReadKind.TheVariants.{UnknownKey, WrongKind};
ghost use Rattle.checks.specs.FirstFault.{check};
ghost use Rattle.list_json.specs.Json.{has_other_key};
ghost use Rattle.checking_reader.specs.Answer.{Answers};

use draw_list::ReadKind;
use serde_json::{Map, Value};

fn is_among(names: &[&str], key: &str) -> bool
    ensures { result ≡ list_any (λ name. bytes_eq name.now key.now) names.now }
{
    names.iter().any(|name| *name == key)
}

fn has_key_beside(object: &Map<String, Value>, names: &[&str]) -> bool
    ensures { result ≡ list_any (λ key. not (list_any (λ name. bytes_eq name.now (string_bytes key)) names.now))
        (keys object.now) }
{
    object.keys().any(|key| !is_among(names, key.as_str()))
}

/// An error unless the value is an object, each of whose keys is among the names.
pub(crate) fn check_keys(value: &Value, names: &[&str]) -> Result<(), ReadKind>
    ensures { let known = map (λ name. name.now) names.now in let seen = as_object (view value.now) in
        Answers (check (is_none seen) WrongKind ∷ check (has_other_key known seen) UnknownKey ∷ [])
        (λ done. IsSome seen × (has_other_key known seen ≡ false)) result }
{
    let Some(object) = value.as_object() else {
        return Err(ReadKind::WrongKind);
    };
    if has_key_beside(object, names) {
        return Err(ReadKind::UnknownKey);
    }
    Ok(())
}
