ghost use Rattle.std.specs.Prelude.{◌≡◌, ◌∷◌, ◌≤◌, [], IfSome, IsTrue, Some, pos, option_map};
ghost use Rattle.std.specs.Bool.{MatchBool};
ghost use Rattle.json.specs.Token.{begin_array, begin_object, string, boolean};
ghost use Rattle.json.specs.Lex.{tokens};
ghost use Rattle.json.specs.Json.{after_end_array, read_key};
ghost use Rattle.json_tokens.specs.Lexed.{TookInteger};
ghost use Rattle.json_tokens.specs.Row.{TookRow};

use crate::blank::skip_blanks;
use crate::lexeme::{close_array, close_object, integer, key, natural, open, text, truth};
use crate::place::Place;
use crate::row::{seven, three};
use std::marker::Model;

/// A place in a JSON text. A clause sees the tokens that are still to come. If a call returns `None` or false, the
/// place is unchanged, but for an array of several integers, of which a part may be taken.
#[derive(Drop)]
pub struct Cursor<'a> {
    bytes: &'a [u8],
    at: usize,
    place: Place,
}

impl<'a> Model for Cursor<'a> {
    ghost use Rattle.std.specs.Prelude.{List, ◌≤◌, length, drop};
    ghost use Rattle.json.specs.Token.{Token as SpecToken, tokens_code};

    ghost Value = { List SpecToken };

    ghost coded = { tokens_code };

    ghost use Rattle.json_tokens.specs.Tokens.{tokens_from};

    ghost view = { λ a. tokens_from a.place (drop a.at a.bytes.now) };

    ghost invariant = { λ a. a.at ≤ length a.bytes.now };
}

impl<'a> Cursor<'a> {
    /// The begin of a text.
    pub fn new(bytes: &'a [u8]) -> Cursor<'a>
        ensures { result ≡ tokens bytes.now }
    {
        Cursor {
            bytes,
            at: 0,
            place: Place::Fresh,
        }
    }

    /// Takes the bracket that opens an array, if it is next.
    #[inline(always)]
    pub fn take_begin_array(&mut self) -> bool
        ensures { IsTrue result → self.old ≡ begin_array ∷ self.new }
    {
        let Some(at) = open(self.bytes, self.at, self.place, b'[') else {
            return false;
        };
        self.at = at;
        self.place = Place::Fresh;
        true
    }

    /// Takes the brace that opens an object, if it is next.
    #[inline(always)]
    pub fn take_begin_object(&mut self) -> bool
        ensures { IsTrue result → self.old ≡ begin_object ∷ self.new }
    {
        let Some(at) = open(self.bytes, self.at, self.place, b'{') else {
            return false;
        };
        self.at = at;
        self.place = Place::Fresh;
        true
    }

    /// Takes the bracket that closes an array, if it is next.
    #[inline(always)]
    pub fn take_end_array(&mut self) -> bool
        ensures { MatchBool result (after_end_array self.old ≡ Some self.new) (self.new ≡ self.old) }
    {
        let Some((place, at)) = close_array(self.bytes, self.at, self.place) else {
            return false;
        };
        self.at = at;
        self.place = place;
        true
    }

    /// Takes a key, or the brace that closes the object.
    pub fn take_key(&mut self) -> Option<Option<&'a str>>
        ensures { IfSome result (λ k. read_key self.old ≡ Some (option_map (λ s. s.now) k, self.new)) }
    {
        if let Some((place, at)) = close_object(self.bytes, self.at, self.place) {
            self.at = at;
            self.place = place;
            return Some(None);
        }
        let (name, at) = key(self.bytes, self.at, self.place)?;
        self.at = at;
        self.place = Place::Fresh;
        Some(Some(name))
    }

    /// Takes a string without escapes.
    pub fn take_text(&mut self) -> Option<&'a str>
        ensures { IfSome result (λ s. self.old ≡ string s.now ∷ self.new) }
    {
        let (found, place, at) = text(self.bytes, self.at, self.place)?;
        self.at = at;
        self.place = place;
        Some(found)
    }

    /// Takes a boolean.
    pub fn take_truth(&mut self) -> Option<bool>
        ensures { IfSome result (λ b. self.old ≡ boolean b ∷ self.new) }
    {
        let (found, place, at) = truth(self.bytes, self.at, self.place)?;
        self.at = at;
        self.place = place;
        Some(found)
    }

    /// Takes an integer.
    #[inline(always)]
    pub fn take_integer(&mut self) -> Option<i64>
        ensures { IfSome result (λ z. TookInteger self.old z self.new) }
    {
        let (number, place, at) = integer(self.bytes, self.at, self.place)?;
        self.at = at;
        self.place = place;
        Some(number)
    }

    /// Takes an integer that is not negative and has no minus.
    #[inline(always)]
    pub fn take_natural(&mut self) -> Option<u64>
        ensures { IfSome result (λ n. TookInteger self.old (pos n) self.new) }
    {
        let (number, place, at) = natural(self.bytes, self.at, self.place)?;
        self.at = at;
        self.place = place;
        Some(number)
    }

    /// Takes an array of three integers that are not negative and have no minus.
    #[inline(always)]
    pub fn take_three(&mut self) -> Option<(u64, u64, u64)>
        ensures { IfSome result (λ row. TookRow self.old (pos row.0 ∷ pos row.1 ∷ pos row.2 ∷ []) self.new) }
    {
        if let Some((row, place, at)) = three(self.bytes, self.at, self.place) {
            self.at = at;
            self.place = place;
            return Some(row);
        }
        self.take_three_slowly()
    }

    /// What `take_three` takes, an integer at a time.
    #[inline(never)]
    fn take_three_slowly(&mut self) -> Option<(u64, u64, u64)>
        ensures { IfSome result (λ row. TookRow self.old (pos row.0 ∷ pos row.1 ∷ pos row.2 ∷ []) self.new) }
    {
        if !self.take_begin_array() {
            return None;
        }
        let first = self.take_natural()?;
        let second = self.take_natural()?;
        let third = self.take_natural()?;
        if !self.take_end_array() {
            return None;
        }
        Some((first, second, third))
    }

    /// Takes an array of two integers, and of five that are not negative and have no minus.
    #[inline(always)]
    pub fn take_seven(&mut self) -> Option<(i64, i64, u64, u64, u64, u64, u64)>
        ensures { IfSome result (λ row. TookRow self.old
            (row.0 ∷ row.1 ∷ pos row.2 ∷ pos row.3 ∷ pos row.4 ∷ pos row.5 ∷ pos row.6 ∷ []) self.new) }
    {
        if let Some((row, place, at)) = seven(self.bytes, self.at, self.place) {
            self.at = at;
            self.place = place;
            return Some(row);
        }
        self.take_seven_slowly()
    }

    /// What `take_seven` takes, an integer at a time.
    #[inline(never)]
    fn take_seven_slowly(&mut self) -> Option<(i64, i64, u64, u64, u64, u64, u64)>
        ensures { IfSome result (λ row. TookRow self.old
            (row.0 ∷ row.1 ∷ pos row.2 ∷ pos row.3 ∷ pos row.4 ∷ pos row.5 ∷ pos row.6 ∷ []) self.new) }
    {
        if !self.take_begin_array() {
            return None;
        }
        let first = self.take_integer()?;
        let second = self.take_integer()?;
        let third = self.take_natural()?;
        let fourth = self.take_natural()?;
        let fifth = self.take_natural()?;
        let sixth = self.take_natural()?;
        let seventh = self.take_natural()?;
        if !self.take_end_array() {
            return None;
        }
        Some((first, second, third, fourth, fifth, sixth, seventh))
    }

    /// Whether no token is left.
    pub fn is_over(&self) -> bool
        ensures { IsTrue result → self.now ≡ [] }
    {
        skip_blanks(self.bytes, self.at) == self.bytes.len() && self.place.may_close()
    }
}
