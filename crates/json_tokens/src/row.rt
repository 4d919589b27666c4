ghost use Rattle.std.specs.Prelude.{◌≡◌, List, ◌+◌, ◌≤◌, ◌<◌, ◌∷◌, [], IfSome, Some, pos, map, true, length, drop, get_or};
ghost use Rattle.std.specs.Bool.{MatchBool};
ghost use Rattle.std.specs.Simd.Lanes.{chunk, mask_l};
ghost use Rattle.json.specs.Token.{Token as SpecToken};
ghost use Rattle.json.specs.Json.{after_end_array};
ghost use Rattle.json.specs.Lex.{after_value, between, lex, punctuate};
ghost use Rattle.json_tokens.specs.declared.place.Place.{Place as SpecPlace};
ghost use Rattle.json_tokens.specs.Eight.{offset, is_other};
ghost use Rattle.json_tokens.specs.Lexed.{AreDigits, IsSizeAt, MayEnd, TookInteger};
ghost use Rattle.json_tokens.specs.Tokens.{tokens_from, begins_at};
ghost use Rattle.json_tokens.specs.Row.{IsAhead, TookRow};

use crate::eight::{number, offsets_at};
use crate::integer::signed;
use crate::lexeme::{close_array, open};
use crate::place::Place;
use std::simd::prelude::*;

/// An index in a row of integers, and which of the bytes from there on are no digits, as a mask with the
/// first byte lowest.
#[derive(Clone, Copy, Drop)]
pub(crate) struct Ahead {
    at: usize,
    others: u64,
}

/// Sixty-four bytes less the byte `0` of ASCII.
#[inline(always)]
fn row_offsets(bytes: &[u8], from: usize) -> u8x64
    requires { from + 64 ≤ length bytes.now }
    ensures { result ≡ map offset (chunk from 64 bytes.now) }
{
    u8x64::from_slice(&bytes[from..]) - u8x64::splat(b'0')
}

/// Which bytes are no digits, the first lowest.
#[inline(always)]
fn others_mask(offsets: u8x64) -> u64
    requires { length offsets ≡ 64 }
    ensures { result ≡ mask_l (map is_other offsets) }
{
    offsets.simd_ge(u8x64::splat(10)).to_bitmask()
}

/// Looks at the 64 bytes from `at` on. Returns `None` near the end of the text.
#[inline(always)]
fn look_ahead(bytes: &[u8], at: usize) -> Option<Ahead>
    requires { at ≤ length bytes.now }
    ensures { IfSome result (λ a. (a.at ≡ at) × IsAhead bytes.now a.at a.others) }
{
    if bytes.len() - at < 72 {
        return None;
    }
    let offsets = row_offsets(bytes, at);
    let others = others_mask(offsets);
    Some(Ahead { at, others })
}

/// Passes a byte that is no digit, if it is this one.
#[inline(always)]
fn pass(bytes: &[u8], ahead: Ahead, byte: u8) -> Option<Ahead>
    requires { IsAhead bytes.now ahead.at ahead.others }
    ensures { IfSome result (λ a. (get_or bytes.now ahead.at 0 ≡ byte) × (ahead.at < length bytes.now) × (a.at ≡ ahead.at + 1)
        × IsAhead bytes.now a.at a.others) }
{
    if ahead.others == 0 {
        return None;
    }
    if bytes[ahead.at] != byte {
        return None;
    }
    Some(Ahead {
        at: ahead.at + 1,
        others: ahead.others >> 1,
    })
}

/// One byte for a minus.
#[inline(always)]
fn sign_width(has_minus: bool) -> usize
    ensures width { MatchBool has_minus (result ≡ 1) (result ≡ 0) }
    ensures most { result ≤ 1 }
{
    if has_minus { 1 } else { 0 }
}

/// Whether a minus is next, and what is ahead behind it. Signs come at random, so nothing branches on them.
#[inline(always)]
fn pass_sign(bytes: &[u8], ahead: Ahead) -> (bool, Ahead)
    requires { IsAhead bytes.now ahead.at ahead.others }
    ensures sign { MatchBool result.0 ((get_or bytes.now ahead.at 0 ≡ 45) × (ahead.at < length bytes.now)
        × (result.1.at ≡ ahead.at + 1)) (result.1.at ≡ ahead.at) }
    ensures ahead { IsAhead bytes.now result.1.at result.1.others }
{
    if ahead.others == 0 {
        return (false, ahead);
    }
    let has_minus = bytes[ahead.at] == b'-';
    let width = sign_width(has_minus);
    let behind = Ahead {
        at: ahead.at + width,
        others: ahead.others >> width,
    };
    (has_minus, behind)
}

/// Passes one to seven digits, and returns the number that they write.
#[inline(always)]
fn digits(bytes: &[u8], ahead: Ahead) -> Option<(u64, Ahead)>
    requires { IsAhead bytes.now ahead.at ahead.others }
    ensures { IfSome result (λ found. AreDigits bytes.now ahead.at found.1.at found.0
        × IsAhead bytes.now found.1.at found.1.others) }
{
    if ahead.others == 0 {
        return None;
    }
    let count = ahead.others.trailing_zeros() as usize;
    if count == 0 {
        return None;
    }
    if count >= 8 {
        return None;
    }
    let size = number(offsets_at(bytes, ahead.at), count);
    let behind = Ahead {
        at: ahead.at + count,
        others: ahead.others >> count,
    };
    Some((size, behind))
}

/// Passes a natural number of up to seven digits.
#[inline(always)]
fn size(bytes: &[u8], ahead: Ahead) -> Option<(u64, Ahead)>
    requires { IsAhead bytes.now ahead.at ahead.others }
    ensures { IfSome result (λ found. IsSizeAt bytes.now ahead.at found.1.at found.0
        × IsAhead bytes.now found.1.at found.1.others) }
{
    let (size, behind) = digits(bytes, ahead)?;
    if bytes[ahead.at] == b'0' && behind.at - ahead.at > 1 {
        return None;
    }
    Some((size, behind))
}

/// Passes the comma behind a number, and one space if there is a gap behind commas.
#[inline(always)]
fn pass_comma(bytes: &[u8], ahead: Ahead, has_gap: bool) -> Option<Ahead>
    requires { IsAhead bytes.now ahead.at ahead.others }
    ensures { IfSome result (λ a. MayEnd bytes.now ahead.at × (tokens_from Place.AfterComma (drop a.at bytes.now)
        ≡ punctuate after_value (lex between (drop ahead.at bytes.now))) × IsAhead bytes.now a.at a.others) }
{
    let behind = pass(bytes, ahead, b',')?;
    if !has_gap {
        return Some(behind);
    }
    let next = pass(bytes, behind, b' ')?;
    Some(next)
}

/// Whether a space is next, and what is ahead behind it.
#[inline(always)]
fn pass_gap(bytes: &[u8], ahead: Ahead) -> (bool, Ahead)
    requires { IsAhead bytes.now ahead.at ahead.others }
    ensures same { lex between (drop result.1.at bytes.now) ≡ lex between (drop ahead.at bytes.now) }
    ensures ahead { IsAhead bytes.now result.1.at result.1.others }
{
    match pass(bytes, ahead, b' ') {
        Some(behind) => (true, behind),
        None => (false, ahead),
    }
}

/// Passes a natural number and the comma behind it.
#[inline(always)]
fn natural(bytes: &[u8], ahead: Ahead, has_gap: bool) -> Option<(u64, Ahead)>
    requires { IsAhead bytes.now ahead.at ahead.others }
    ensures { IfSome result (λ found. ((place : SpecPlace) → begins_at place ≡ true
        → TookInteger (tokens_from place (drop ahead.at bytes.now)) (pos found.0)
        (tokens_from Place.AfterComma (drop found.1.at bytes.now)))
        × IsAhead bytes.now found.1.at found.1.others) }
{
    let (size, end) = size(bytes, ahead)?;
    let next = pass_comma(bytes, end, has_gap)?;
    Some((size, next))
}

/// Passes an integer and the comma behind it.
#[inline(always)]
fn integer(bytes: &[u8], ahead: Ahead, has_gap: bool) -> Option<(i64, Ahead)>
    requires { IsAhead bytes.now ahead.at ahead.others }
    ensures { IfSome result (λ found. ((place : SpecPlace) → begins_at place ≡ true
        → TookInteger (tokens_from place (drop ahead.at bytes.now)) found.0
        (tokens_from Place.AfterComma (drop found.1.at bytes.now)))
        × IsAhead bytes.now found.1.at found.1.others) }
{
    let (has_minus, first) = pass_sign(bytes, ahead);
    let (size, end) = size(bytes, first)?;
    if has_minus && size == 0 {
        return None;
    }
    let next = pass_comma(bytes, end, has_gap)?;
    Some((signed(has_minus, size), next))
}

/// Passes a natural number and the bracket behind it.
#[inline(always)]
fn last(bytes: &[u8], ahead: Ahead) -> Option<(u64, Place, usize)>
    requires { IsAhead bytes.now ahead.at ahead.others }
    ensures { IfSome result (λ found. ((place : SpecPlace) → begins_at place ≡ true → (end : List SpecToken)
        × TookInteger (tokens_from place (drop ahead.at bytes.now)) (pos found.0) end
        × (after_end_array end ≡ Some (tokens_from found.1 (drop found.2 bytes.now)))) × (found.2 ≤ length bytes.now)) }
{
    let (size, end) = size(bytes, ahead)?;
    if bytes[end.at] != b']' {
        return None;
    }
    let (place, next) = close_array(bytes, end.at, Place::AfterValue)?;
    Some((size, place, next))
}

/// Passes an array of three natural numbers, with no blanks or with a space behind each comma.
#[inline(always)]
pub(crate) fn three(
    bytes: &[u8],
    at: usize,
    place: Place,
) -> Option<((u64, u64, u64), Place, usize)>
    requires { at ≤ length bytes.now }
    ensures { IfSome result (λ row. TookRow (tokens_from place (drop at bytes.now))
        (pos row.0.0 ∷ pos row.0.1 ∷ pos row.0.2 ∷ [])
        (tokens_from row.1 (drop row.2 bytes.now)) × (row.2 ≤ length bytes.now)) }
{
    let ahead = look_ahead(bytes, open(bytes, at, place, b'[')?)?;
    let (first, ahead) = natural(bytes, ahead, false)?;
    let (has_gap, ahead) = pass_gap(bytes, ahead);
    let (second, ahead) = natural(bytes, ahead, has_gap)?;
    let (third, place, next) = last(bytes, ahead)?;
    Some(((first, second, third), place, next))
}

/// Two integers and five natural numbers.
pub(crate) type Seven = (i64, i64, u64, u64, u64, u64, u64);

/// Passes an array of two integers and five natural numbers, with no blanks or with a space behind each comma.
#[inline(always)]
pub(crate) fn seven(bytes: &[u8], at: usize, place: Place) -> Option<(Seven, Place, usize)>
    requires { at ≤ length bytes.now }
    ensures { IfSome result (λ row. TookRow (tokens_from place (drop at bytes.now))
        (row.0.0 ∷ row.0.1 ∷ pos row.0.2 ∷ pos row.0.3 ∷ pos row.0.4 ∷ pos row.0.5 ∷ pos row.0.6 ∷ [])
        (tokens_from row.1 (drop row.2 bytes.now)) × (row.2 ≤ length bytes.now)) }
{
    let ahead = look_ahead(bytes, open(bytes, at, place, b'[')?)?;
    let (first, ahead) = integer(bytes, ahead, false)?;
    let (has_gap, ahead) = pass_gap(bytes, ahead);
    let (second, ahead) = integer(bytes, ahead, has_gap)?;
    let (third, ahead) = natural(bytes, ahead, has_gap)?;
    let (fourth, ahead) = natural(bytes, ahead, has_gap)?;
    let (fifth, ahead) = natural(bytes, ahead, has_gap)?;
    let (sixth, ahead) = natural(bytes, ahead, has_gap)?;
    let (seventh, place, next) = last(bytes, ahead)?;
    let row = (first, second, third, fourth, fifth, sixth, seventh);
    Some((row, place, next))
}
