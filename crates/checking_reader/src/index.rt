ghost use Rattle.std.specs.Prelude.{◌≤◌, option_map};
ghost use Rattle.serde_json.specs.View.{view};
ghost use Rattle.checking_reader.specs.Answer.{Answers};
ghost use Rattle.list_json.specs.Checks.{vertex_index_checks};
ghost use Rattle.list_json.specs.Denotes.{IsIndex};

use crate::number::whole_number;
use draw_list::{MOST_VERTICES, ReadKind};
use serde_json::Value;

/// The index of one of `count` vertices.
pub(crate) fn index(value: Option<&Value>, count: usize) -> Result<u32, ReadKind>
    requires { count ≤ MOST_VERTICES }
    ensures { let seen = option_map (λ v. view v.now) value.entry in
        Answers (vertex_index_checks count seen) (IsIndex count seen) result }
{
    Ok(whole_number(value, 0, count as i64 - 1, ReadKind::BadIndex)? as u32)
}
