//! A place in a JSON text.

ghost use Rattle.std.specs.Prelude.{◌≡◌, ◌∷◌, [], Some, false, IfOk, IfSome, OnOk, IsTrue, length, ◌<◌, option_map};
ghost use Rattle.json.specs.Token.{begin_object, begin_array, end_array};
ghost use Rattle.json.specs.Text.{content, plain};
ghost use Rattle.json.specs.Lex.{between, in_string, lex, tokens};
ghost use Rattle.json.specs.Json.{read_key, value};
ghost use Rattle.serde_json.specs.Data.{Data, Items, array, item};
ghost use Rattle.serde_json.specs.Read.{of_json, converted};
ghost use Rattle.serde_json.specs.View.{view};
ghost use Rattle.lay_json.specs.Spans.Readings.{tokens_at, Opens, Closes, ReadsItems};

use crate::spans::class::is_space;
use crate::spans::halt::Halt;
use crate::spans::span::span_of;
use crate::spans::wrapped::{only, read_values};
use serde_json::Value;
use std::alloc::Global;
use std::marker::Model;

/// What stands before a place.
#[derive(Clone, Copy)]
pub(crate) enum Place {
    /// A bracket that opens a list or an object, or a colon, or nothing.
    Fresh,
    AfterValue,
    AfterComma,
}

/// A place in a JSON text. A clause sees the tokens that follow.
#[derive(Drop)]
pub struct Cursor<'a> {
    rest: &'a [u8],
    place: Place,
}

impl<'a> Model for Cursor<'a> {
    ghost use Rattle.std.specs.Prelude.{List};
    ghost use Rattle.json.specs.Token.{Token};
    ghost use Rattle.lay_json.specs.Spans.Readings.{tokens_at};

    ghost Value = { List Token };

    ghost view = { λ c. tokens_at c.place c.rest.now };
}

/// The text after the spaces that it begins with.
fn after_spaces(text: &[u8]) -> &[u8]
    ensures { lex between result.now ≡ lex between text.now }
{
    let mut rest = text;
    'spaces: while let Some((first, behind)) = rest.split_first() {
        if !is_space(*first) {
            return rest;
        }
        rest = behind;
    }
    rest
}

/// The text after this byte, if it begins with it.
fn after(byte: u8, text: &[u8]) -> Option<&[u8]>
    ensures { IfSome result (λ r. text.now ≡ byte ∷ r.now) }
{
    let (first, rest) = text.split_first()?;
    if *first == byte { Some(rest) } else { None }
}

/// The plain text up to a quote, and what follows the quote.
fn plain_text(text: &[u8]) -> Option<(&[u8], &[u8])>
    ensures content { IfSome result (λ p. content plain text.now ≡ Some p.0.now) }
    ensures rest { IfSome result (λ p. lex in_string text.now ≡ lex between p.1.now) }
{
    let mut at = 0usize;
    for byte in text {
        if *byte == b'"' {
            let (name, quoted) = text.split_at(at);
            return Some((name, after(b'"', quoted)?));
        }
        if *byte == b'\\' || *byte < b' ' {
            return None;
        }
        at += 1;
    }
    None
}

impl<'a> Cursor<'a> {
    /// The beginning of a text.
    pub fn new(text: &'a [u8]) -> Cursor<'a>
        ensures { result ≡ tokens text.now }
    {
        Cursor {
            rest: text,
            place: Place::Fresh,
        }
    }

    /// Passes spaces, and the comma after a value.
    fn settle(&mut self)
        ensures { self.new ≡ self.old }
    {
        self.rest = after_spaces(self.rest);
        if let Place::AfterValue = self.place {
            if let Some(rest) = after(b',', self.rest) {
                self.rest = after_spaces(rest);
                self.place = Place::AfterComma;
            }
        }
    }

    /// The text after this byte, which comes next where a value may begin.
    fn opened(&mut self, byte: u8) -> Result<&'a [u8], Halt>
        ensures same { self.new ≡ self.old }
        ensures opens { IfOk result (λ r. Opens self.old byte r.now) }
    {
        self.settle();
        if let Place::AfterValue = self.place {
            return Err(Halt::Doubt);
        }
        after(byte, self.rest).ok_or(Halt::Doubt)
    }

    /// The text after this byte, if it comes next and a bracket may be closed.
    fn closed(&mut self, byte: u8) -> Option<&'a [u8]>
        ensures same { self.new ≡ self.old }
        ensures closes { IfSome result (λ r. Closes self.old byte r.now) }
    {
        self.settle();
        if let Place::AfterComma = self.place {
            return None;
        }
        after(byte, self.rest)
    }

    /// Passes the brace that opens an object.
    pub fn begin_object(&mut self) -> Result<(), Halt>
        ensures { OnOk result (self.old ≡ begin_object ∷ self.new) }
    {
        self.rest = self.opened(b'{')?;
        self.place = Place::Fresh;
        Ok(())
    }

    /// Passes the bracket that opens a list, where it comes next.
    pub fn begin_array(&mut self) -> bool
        ensures yes { IsTrue result → self.old ≡ begin_array ∷ self.new }
        ensures no { result ≡ false → self.new ≡ self.old }
    {
        let Ok(rest) = self.opened(b'[') else {
            return false;
        };
        self.rest = rest;
        self.place = Place::Fresh;
        true
    }

    /// Passes the bracket that closes a list, where it comes next.
    pub fn end_array(&mut self) -> bool
        ensures yes { IsTrue result → self.old ≡ end_array ∷ self.new }
        ensures no { result ≡ false → self.new ≡ self.old }
    {
        let Some(rest) = self.closed(b']') else {
            return false;
        };
        self.rest = rest;
        self.place = Place::AfterValue;
        true
    }

    /// The name of the next member, or none at the brace that closes the object.
    pub fn next_name(&mut self) -> Result<Option<&'a [u8]>, Halt>
        ensures value { IfOk result (λ k. read_key self.old ≡ Some (option_map (λ s. s.now) k, self.new)) }
        ensures shorter { OnOk result (length self.new < length self.old) }
    {
        if let Some(rest) = self.closed(b'}') {
            self.rest = rest;
            self.place = Place::AfterValue;
            return Ok(None);
        }
        Ok(Some(self.name()?))
    }

    /// The name of the next member.
    fn name(&mut self) -> Result<&'a [u8], Halt>
        ensures value { IfOk result (λ k. read_key self.old ≡ Some (Some k.now, self.new)) }
        ensures shorter { OnOk result (length self.new < length self.old) }
    {
        let text = self.opened(b'"')?;
        let Some((name, behind)) = plain_text(text) else {
            return Err(Halt::Doubt);
        };
        let Some(rest) = after(b':', after_spaces(behind)) else {
            return Err(Halt::Doubt);
        };
        self.rest = rest;
        self.place = Place::Fresh;
        Ok(name)
    }

    /// The next values of a list, at most so many and at least one, as one list. They are read from `kept`.
    pub fn next_values(
        &mut self,
        alloc: Global,
        kept: &mut Vec<u8>,
        most: usize,
    ) -> Result<Value, Halt>
        ensures value { IfOk result (λ v. (first : Data) × (rest : Items) × (view v ≡ array (item first rest))
            × ReadsItems 124 self.old (item first rest) self.new) }
        ensures shorter { OnOk result (length self.new < length self.old) }
    {
        self.settle();
        if let Place::AfterValue = self.place {
            return Err(Halt::Doubt);
        }
        let Some(len) = span_of(self.rest, most) else {
            return Err(Halt::Doubt);
        };
        let (own, rest) = self.rest.split_at(len);
        let values = read_values(alloc, kept, own)?;
        self.rest = rest;
        self.place = Place::AfterValue;
        Ok(values)
    }

    /// The next value, which is read from `kept`.
    pub fn next_value(&mut self, alloc: Global, kept: &mut Vec<u8>) -> Result<Value, Halt>
        ensures value { IfOk result (λ v. converted of_json (value 124 self.old) ≡ Some (view v, self.new)) }
        ensures shorter { OnOk result (length self.new < length self.old) }
    {
        let values = self.next_values(alloc, kept, 1)?;
        let value = only(values)?;
        Ok(value)
    }

    /// Whether nothing follows.
    pub fn is_at_end(&mut self) -> bool
        ensures { IsTrue result → self.old ≡ [] }
    {
        self.settle();
        if let Place::AfterComma = self.place {
            return false;
        }
        self.rest.is_empty()
    }
}
