ghost use Rattle.std.specs.Prelude.{◌≡◌, ◌≤◌, ◌<◌, ◌∷◌, true, IfSome, IsTrue, Some, pos, length, drop};
ghost use Rattle.json.specs.Token.{end_object, key, string, boolean};
ghost use Rattle.json.specs.Lex.{class, operator, operator_lexeme, between, lex, after_value, punctuate};
ghost use Rattle.json.specs.Json.{after_end_array};
ghost use Rattle.json_tokens.specs.Lexed.{TookInteger, GoesOn, MayEnd};
ghost use Rattle.json_tokens.specs.Tokens.{tokens_from, begins_at, IsOpening, opened_by};

use crate::blank::{byte_at, skip_blanks};
use crate::integer::{ends_word, integer_at, size_at};
use crate::place::Place;
use crate::plain::{string_at, truth_at};

/// What stands behind a value: its comma is passed.
#[inline(always)]
fn after_value(bytes: &[u8], at: usize) -> (Place, usize)
    requires { at ≤ length bytes.now }
    ensures same { tokens_from result.0 (drop result.1 bytes.now) ≡
        punctuate after_value (lex between (drop at bytes.now)) }
    ensures within { result.1 ≤ length bytes.now }
{
    let next = skip_blanks(bytes, at);
    if byte_at(bytes, next) == b',' {
        (Place::AfterComma, next + 1)
    } else {
        (Place::AfterValue, next)
    }
}

/// Passes this bracket, brace or colon, and the blanks before it.
#[inline(always)]
fn pass_operator(bytes: &[u8], at: usize, mark: u8) -> Option<usize>
    requires at { at ≤ length bytes.now }
    requires mark { (0 < mark) × (class mark ≡ operator) }
    ensures { IfSome result (λ next. (lex between (drop at bytes.now)
        ≡ operator_lexeme mark ∷ lex between (drop next bytes.now)) × (next ≤ length bytes.now)) }
{
    let next = skip_blanks(bytes, at);
    if byte_at(bytes, next) != mark {
        return None;
    }
    Some(next + 1)
}

/// Passes the bracket that opens an array, or the brace that opens an object.
#[inline(always)]
pub(crate) fn open(bytes: &[u8], at: usize, place: Place, mark: u8) -> Option<usize>
    requires at { at ≤ length bytes.now }
    requires mark { IsOpening mark }
    ensures { IfSome result (λ next. (tokens_from place (drop at bytes.now)
        ≡ opened_by mark ∷ tokens_from Place.Fresh (drop next bytes.now)) × (next ≤ length bytes.now)) }
{
    if !place.may_begin() {
        return None;
    }
    pass_operator(bytes, at, mark)
}

/// Passes the bracket that closes an array.
#[inline(always)]
pub(crate) fn close_array(bytes: &[u8], at: usize, place: Place) -> Option<(Place, usize)>
    requires { at ≤ length bytes.now }
    ensures { IfSome result (λ next. (after_end_array (tokens_from place (drop at bytes.now))
        ≡ Some (tokens_from next.0 (drop next.1 bytes.now))) × (next.1 ≤ length bytes.now)) }
{
    if !place.may_close() {
        return None;
    }
    let next = pass_operator(bytes, at, b']')?;
    Some(after_value(bytes, next))
}

/// What stands behind a number that ends at `end`: its comma is passed. Returns `None` if no number may end there.
#[inline(always)]
fn after_number(bytes: &[u8], end: usize) -> Option<(Place, usize)>
    requires { end ≤ length bytes.now }
    ensures { IfSome result (λ next. MayEnd bytes.now end × (tokens_from next.0 (drop next.1 bytes.now)
        ≡ punctuate after_value (lex between (drop end bytes.now))) × (next.1 ≤ length bytes.now)) }
{
    let stop = byte_at(bytes, end);
    if stop == b',' {
        return Some((Place::AfterComma, end + 1));
    }
    if !ends_word(stop) {
        return None;
    }
    Some(after_value(bytes, end))
}

/// Passes the blanks before a value or a key. Returns `None` if none may begin here.
#[inline(always)]
fn begin(bytes: &[u8], at: usize, place: Place) -> Option<usize>
    requires { at ≤ length bytes.now }
    ensures { IfSome result (λ from. (begins_at place ≡ true)
        × (lex between (drop from bytes.now) ≡ lex between (drop at bytes.now)) × (from ≤ length bytes.now)) }
{
    if !place.may_begin() {
        return None;
    }
    Some(skip_blanks(bytes, at))
}

/// Passes an integer.
#[inline(always)]
pub(crate) fn integer(bytes: &[u8], at: usize, place: Place) -> Option<(i64, Place, usize)>
    requires { at ≤ length bytes.now }
    ensures { IfSome result (λ next. TookInteger (tokens_from place (drop at bytes.now)) next.0
        (tokens_from next.1 (drop next.2 bytes.now)) × (next.2 ≤ length bytes.now)) }
{
    let from = begin(bytes, at, place)?;
    let (number, end) = integer_at(bytes, from)?;
    let (place, next) = after_number(bytes, end)?;
    Some((number, place, next))
}

/// Passes a natural number.
#[inline(always)]
pub(crate) fn natural(bytes: &[u8], at: usize, place: Place) -> Option<(u64, Place, usize)>
    requires { at ≤ length bytes.now }
    ensures { IfSome result (λ next. TookInteger (tokens_from place (drop at bytes.now)) (pos next.0)
        (tokens_from next.1 (drop next.2 bytes.now)) × (next.2 ≤ length bytes.now)) }
{
    let from = begin(bytes, at, place)?;
    let (number, end) = size_at(bytes, from)?;
    let (place, next) = after_number(bytes, end)?;
    Some((number, place, next))
}

/// Passes the brace that closes an object.
pub(crate) fn close_object(bytes: &[u8], at: usize, place: Place) -> Option<(Place, usize)>
    requires { at ≤ length bytes.now }
    ensures { IfSome result (λ next. (tokens_from place (drop at bytes.now)
        ≡ end_object ∷ tokens_from next.0 (drop next.1 bytes.now)) × (next.1 ≤ length bytes.now)) }
{
    if !place.may_close() {
        return None;
    }
    let next = pass_operator(bytes, at, b'}')?;
    Some(after_value(bytes, next))
}

/// Passes a key and its colon.
pub(crate) fn key<'a>(bytes: &'a [u8], at: usize, place: Place) -> Option<(&'a str, usize)>
    requires { at ≤ length bytes.now }
    ensures { IfSome result (λ next. (tokens_from place (drop at bytes.now)
        ≡ key next.0.now ∷ tokens_from Place.Fresh (drop next.1 bytes.now)) × (next.1 ≤ length bytes.now)) }
{
    let from = begin(bytes, at, place)?;
    let (name, end) = string_at(bytes, from)?;
    Some((name, pass_operator(bytes, end, b':')?))
}

/// Passes a string.
pub(crate) fn text<'a>(bytes: &'a [u8], at: usize, place: Place) -> Option<(&'a str, Place, usize)>
    requires { at ≤ length bytes.now }
    ensures { IfSome result (λ next. (tokens_from place (drop at bytes.now)
        ≡ string next.0.now ∷ tokens_from next.1 (drop next.2 bytes.now)) × (next.2 ≤ length bytes.now)) }
{
    let from = begin(bytes, at, place)?;
    let (found, end) = string_at(bytes, from)?;
    let next = skip_blanks(bytes, end);
    if !goes_on(byte_at(bytes, next)) {
        return None;
    }
    let (place, next) = after_value(bytes, next);
    Some((found, place, next))
}

/// Whether the byte is a comma or a closing bracket.
fn goes_on(byte: u8) -> bool
    ensures { IsTrue result → GoesOn byte }
{
    byte == b',' || byte == b']' || byte == b'}'
}

/// Passes a boolean.
pub(crate) fn truth(bytes: &[u8], at: usize, place: Place) -> Option<(bool, Place, usize)>
    requires { at ≤ length bytes.now }
    ensures { IfSome result (λ next. (tokens_from place (drop at bytes.now)
        ≡ boolean next.0 ∷ tokens_from next.1 (drop next.2 bytes.now)) × (next.2 ≤ length bytes.now)) }
{
    let from = begin(bytes, at, place)?;
    let (found, end) = truth_at(bytes, from)?;
    let (place, next) = after_value(bytes, end);
    Some((found, place, next))
}
