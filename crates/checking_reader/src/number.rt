ghost use Rattle.std.specs.Prelude.{◌≡◌, pos, ◌≤ℤ◌, option_map};
ghost use Rattle.serde_json.specs.View.{view};
ghost use Rattle.checking_reader.specs.Answer.{Answers};
ghost use Rattle.list_json.specs.Checks.{number_checks, coordinate_checks, depth_checks, channel_checks, is_from_to};
ghost use Rattle.list_json.specs.Denotes.{IsIntegerWithin, IsCoordinate, IsDepthNumber, IsChannel};

use draw_list::ReadKind;
use grid::Point;
use serde_json::Value;

/// An integer from `low` to `high`. Another integer is the error `outside`.
pub(crate) fn whole_number(
    value: Option<&Value>,
    low: i64,
    high: i64,
    outside: ReadKind,
) -> Result<i64, ReadKind>
    ensures { let seen = option_map (λ v. view v.now) value.entry in
        Answers (number_checks (is_from_to low high) outside seen) (IsIntegerWithin low high seen) result }
{
    let Some(value) = value else {
        return Err(ReadKind::WrongKind);
    };
    match value.as_i64() {
        Some(number) if low <= number && number <= high => Ok(number),
        Some(_) => Err(outside),
        None if value.is_u64() => Err(outside),
        None => Err(ReadKind::WrongKind),
    }
}

/// A coordinate of the guard band, in 1/256 pixel: a number at which there can be a point.
pub(crate) fn coordinate(value: Option<&Value>) -> Result<i32, ReadKind>
    ensures { let seen = option_map (λ v. view v.now) value.entry in
        Answers (coordinate_checks seen) (IsCoordinate seen) result }
{
    let (low, high) = (i64::from(i32::MIN), i64::from(i32::MAX));
    let number = whole_number(value, low, high, ReadKind::OutOfRange)? as i32;
    if Point::new(number, number).is_none() {
        return Err(ReadKind::OutOfRange);
    }
    Ok(number)
}

pub(crate) fn depth(value: Option<&Value>) -> Result<u16, ReadKind>
    ensures { let seen = option_map (λ v. view v.now) value.entry in
        Answers (depth_checks seen) (IsDepthNumber seen) result }
{
    Ok(whole_number(value, 0, i64::from(u16::MAX), ReadKind::OutOfRange)? as u16)
}

/// A colour channel or an alpha.
pub(crate) fn channel(value: Option<&Value>) -> Result<u8, ReadKind>
    ensures { let seen = option_map (λ v. view v.now) value.entry in
        Answers (channel_checks seen) (IsChannel seen) result }
{
    Ok(whole_number(value, 0, i64::from(u8::MAX), ReadKind::OutOfRange)? as u8)
}
