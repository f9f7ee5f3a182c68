ghost use Rattle.std.specs.Prelude.{◌≡◌, Bool, ℕ, ◌∷◌, [], ◌<◌, ◌≤◌, ◌^◌, ◌↔◌, false, length, true, IfErr, IfOk, IsFalse, IsTrue, All, Any, List, MatchResult, ◌⊎◌, if◌then◌else◌, slice_range};
ghost use Rattle.std.specs.Str.{IsAscii, IsCharBoundary, chars};
ghost use Rattle.rx_units.specs.Cursor.{AreEnds, IsOffset, begins, front, front_kind, move_on, offset_of, rest, second};
ghost use Rattle.rx_units.specs.declared.code_point.CodePoint.{CodePoint as UnitValue};
ghost use Rattle.rx_units.specs.declared.reader_fault.ReaderFault.{ReaderFault as FaultValue};
ghost use Rattle.rx_units.specs.Quoted.Faults.{is_grave_accent};
ghost use Rattle.rx_units.specs.Sources.{Decodes, IsQuotedFault};
ghost use Rattle.rx_units.specs.Units.{literal_units, offset_at};
ghost use Rattle.rx_units.specs.Digits.{front_is};

use crate::{
    Ahead, CodePoint, EscapeKind, Options, ReaderFault, Unit, UnitSource, parse_regexp_literal,
    string_literal_parser, template_literal_parser,
};
use rx_base::{List, OutOfMemory, Text};
use std::alloc::Global;
use std::marker::Model;

/// The units of a source text, and a place between them. A checkpoint is a place and its offset in bytes. `S` is what the units are read from, a list where it is not named.
#[derive(Drop)]
pub struct Reader<'a, S: UnitSource = List<CodePoint>> {
    source_text: &'a str,
    units: S,
    index: usize,
    offset: u32,
    first: u32,
}

impl<'a, S: UnitSource> Model for Reader<'a, S> {
    ghost use Rattle.rx_units.specs.Cursor.{IsSound, Cursor};

    ghost Value = { Cursor };

    ghost view = { λ r. record { units = S.units r.units; place = r.index; first = r.first; text = r.source_text.now } };

    // Why: docs/DECISIONS.md, 22.
    ghost invariant = { λ r. IsSound (S.units r.units) r.index r.offset r.first r.source_text.now };
}

impl<'a> Reader<'a, List<CodePoint>> {
    /// Reads the text of a literal, or one in quotes: a template where it begins with a grave accent, else a string. In unicode mode the units are code
    /// points; else a character past FFFF is two UTF-16 code units.
    pub fn initialize(
        alloc: Global,
        source_text: &'a str,
        unicode_mode: bool,
        parse_string_or_template_literal: bool,
    ) -> Result<Reader<'a>, ReaderFault>
        requires { length source_text.now < 2 ^ 32 }

        // A literal is read, or memory ran out.
        ensures literal { IsFalse parse_string_or_template_literal → MatchResult result
            (λ reader. reader ≡ record { units = literal_units unicode_mode 0 (chars source_text.now); place = 0; first = 0; text = source_text.now })
            (λ fault. fault ≡ ReaderFault.OutOfMemory) }

        // A text in quotes is read as what it is decoded to, from after its quote on; else it is refused for its fault, or memory ran out.
        ensures quoted { IsTrue parse_string_or_template_literal → MatchResult result
            (λ reader. Decodes false unicode_mode (chars source_text.now) reader.units × (reader.place ≡ 0) × (reader.first ≡ 1) × (reader.text ≡ source_text.now))
            (λ fault. (fault ≡ ReaderFault.OutOfMemory) ⊎ IsQuotedFault false unicode_mode (chars source_text.now) fault) }
        ensures decodes { IsTrue parse_string_or_template_literal → (units : List UnitValue) → Decodes false unicode_mode (chars source_text.now) units →
            IfErr result (λ fault. fault ≡ ReaderFault.OutOfMemory) }
        ensures refuses { IsTrue parse_string_or_template_literal → (f : FaultValue) → IsQuotedFault false unicode_mode (chars source_text.now) f →
            MatchResult result (λ reader. ⊥) (λ fault. (fault ≡ ReaderFault.OutOfMemory) ⊎ (fault ≡ f)) }

        // No unit ends after the text.
        ensures within { IfOk result (λ reader. All (λ unit. unit.span.end ≤ length source_text.now) reader.units) }
    {
        if parse_string_or_template_literal {
            return Reader::read_quoted(alloc, source_text, unicode_mode, false);
        }
        let units = parse_regexp_literal(alloc, source_text, 0, unicode_mode)?;
        Ok(Reader::at_start(source_text, units, 0))
    }

    /// Reads a text in quotes as the standard has it: the units are those of its value (ECMA-262, 12.9.4.2 and 12.9.6.1), in unicode mode its code points
    /// (11.1.5), else its code units.
    pub fn initialize_standard(
        alloc: Global,
        source_text: &'a str,
        unicode_mode: bool,
    ) -> Result<Reader<'a>, ReaderFault>
        requires { length source_text.now < 2 ^ 32 }
        ensures quoted { MatchResult result
            (λ reader. Decodes true unicode_mode (chars source_text.now) reader.units × (reader.place ≡ 0) × (reader.first ≡ 1) × (reader.text ≡ source_text.now))
            (λ fault. (fault ≡ ReaderFault.OutOfMemory) ⊎ IsQuotedFault true unicode_mode (chars source_text.now) fault) }
        ensures decodes { (units : List UnitValue) → Decodes true unicode_mode (chars source_text.now) units → IfErr result (λ fault. fault ≡ ReaderFault.OutOfMemory) }
        ensures refuses { (f : FaultValue) → IsQuotedFault true unicode_mode (chars source_text.now) f →
            MatchResult result (λ reader. ⊥) (λ fault. (fault ≡ ReaderFault.OutOfMemory) ⊎ (fault ≡ f)) }

        // No unit ends after the text.
        ensures within { IfOk result (λ reader. All (λ unit. unit.span.end ≤ length source_text.now) reader.units) }
    {
        Reader::read_quoted(alloc, source_text, unicode_mode, true)
    }

    /// Reads a text in quotes, as the standard has it or as the Rust crate does.
    fn read_quoted(
        alloc: Global,
        source_text: &'a str,
        unicode_mode: bool,
        standard: bool,
    ) -> Result<Reader<'a>, ReaderFault>
        requires { length source_text.now < 2 ^ 32 }
        ensures quoted { MatchResult result
            (λ reader. Decodes standard unicode_mode (chars source_text.now) reader.units × (reader.place ≡ 0) × (reader.first ≡ 1) × (reader.text ≡ source_text.now))
            (λ fault. (fault ≡ ReaderFault.OutOfMemory) ⊎ IsQuotedFault standard unicode_mode (chars source_text.now) fault) }
        ensures decodes { (units : List UnitValue) → Decodes standard unicode_mode (chars source_text.now) units → IfErr result (λ fault. fault ≡ ReaderFault.OutOfMemory) }
        ensures refuses { (f : FaultValue) → IsQuotedFault standard unicode_mode (chars source_text.now) f →
            MatchResult result (λ reader. ⊥) (λ fault. (fault ≡ ReaderFault.OutOfMemory) ⊎ (fault ≡ f)) }
        ensures within { IfOk result (λ reader. All (λ unit. unit.span.end ≤ length source_text.now) reader.units) }
    {
        let units = quoted_units(alloc, source_text, unicode_mode, standard)?;
        Ok(Reader::at_start(source_text, units, 1))
    }

    /// A reader before the first of some units, whose offset is `first`.
    fn at_start(source_text: &'a str, units: List<CodePoint>, first: u32) -> Reader<'a>
        requires start { IsCharBoundary source_text.now first }
        requires ends { AreEnds source_text.now first units }
        requires code_points { All (λ unit. unit.value ≤ 0x10FFFF) units }
        ensures { result ≡ record { units = units; place = 0; first = first; text = source_text.now } }
    {
        Reader {
            source_text,
            units,
            index: 0,
            offset: first,
            first,
        }
    }

    /// The units from a checkpoint of this reader to the place.
    pub fn code_points_since(&self, checkpoint: (usize, u32)) -> &[CodePoint]
        requires place { checkpoint.0 ≤ self.now.place }
        requires offset { checkpoint.1 ≡ offset_at self.now.first self.now.units checkpoint.0 }
        ensures { result.now ≡ slice_range self.now.units checkpoint.0 self.now.place }
    {
        &self.units.as_slice()[checkpoint.0..self.index]
    }

    /// The units from the place to the end.
    #[tactic(auto, using(crate::proofs::CodePoints::code_points_from))]
    #[inline]
    pub fn remaining_code_points(&self) -> &[CodePoint]
        ensures units { result.now ≡ rest self.now }
        ensures code_points { All (λ unit. unit.value ≤ 0x10FFFF) result.now }
    {
        &self.units.as_slice()[self.index..]
    }

    /// The value of the unit after the one at the place.
    pub fn peek2(&self) -> Option<u32>
        ensures { result ≡ second (rest self.now) }
    {
        match self.remaining_code_points() {
            [_, unit, ..] => Some(unit.value),
            _ => None,
        }
    }

    /// How the unit at the place was written; `None` at the end.
    pub fn peek_escape_kind(&self) -> EscapeKind
        ensures { result ≡ front_kind (rest self.now) }
    {
        match self.remaining_code_points() {
            [unit, ..] => unit.escape_kind,
            _ => EscapeKind::None,
        }
    }

    /// Whether some unit of the whole text, also after the place, has the value of the character.
    pub fn contains(&self, ch: char) -> bool
        ensures { IsTrue result ↔ Any (λ unit. unit.value ≡ ch) self.now.units }
    {
        let units = self.units.as_slice();
        units.iter().any(|unit| unit.value == ch as u32)
    }

    /// Moves over both characters where they stand at the place one after the other, and says whether they do.
    /// For callers: no reader of these crates needs it.
    pub fn eat2(&mut self, ch: char, ch2: char) -> bool
        ensures value { result ≡ begins (ch ∷ ch2 ∷ []) (rest self.old) }
        ensures reader { self.new ≡ (if result then move_on 2 self.old else self.old) }
    {
        if self.peek() != Some(ch as u32) || self.peek2() != Some(ch2 as u32) {
            return false;
        }
        self.skip(2);
        true
    }

    /// Moves over the three characters where they stand at the place one after the other, and says whether they do.
    /// For callers: no reader of these crates needs it.
    pub fn eat3(&mut self, ch: char, ch2: char, ch3: char) -> bool
        ensures value { result ≡ begins (ch ∷ ch2 ∷ ch3 ∷ []) (rest self.old) }
        ensures reader { self.new ≡ (if result then move_on 3 self.old else self.old) }
    {
        match self.remaining_code_points() {
            [first, second, third, ..]
                if first.value == ch as u32
                    && second.value == ch2 as u32
                    && third.value == ch3 as u32 => {}
            _ => return false,
        }
        self.skip(3);
        true
    }

    /// Moves over the four characters where they stand at the place one after the other, and says whether they do.
    /// For callers: no reader of these crates needs it.
    pub fn eat4(&mut self, ch: char, ch2: char, ch3: char, ch4: char) -> bool
        ensures value { result ≡ begins (ch ∷ ch2 ∷ ch3 ∷ ch4 ∷ []) (rest self.old) }
        ensures reader { self.new ≡ (if result then move_on 4 self.old else self.old) }
    {
        match self.remaining_code_points() {
            [first, second, third, fourth, ..]
                if first.value == ch as u32
                    && second.value == ch2 as u32
                    && third.value == ch3 as u32
                    && fourth.value == ch4 as u32 => {}
            _ => return false,
        }
        self.skip(4);
        true
    }

    /// The source text between two offsets, in bytes.
    pub fn str(&self, alloc: Global, start: u32, end: u32) -> Result<Text, OutOfMemory>
        requires from { IsOffset self.now start }
        requires to { IsOffset self.now end }
        requires order { start ≤ end }
        ensures { IfOk result (λ text. text ≡ chars (slice_range self.now.text start end)) }
    {
        let part = &self.source_text[start as usize..end as usize];
        Text::from_str(alloc, part)
    }
}

impl<'a> Reader<'a, &'a [u8]> {
    /// Reads the text of a literal in ASCII, and takes no memory. Its units are its bytes: each is a code point, and a UTF-16 code unit too (RegExpInitialize, ECMA-262, 22.2.3.3).
    pub fn of_ascii(source_text: &'a str) -> Reader<'a, &'a [u8]>
        requires short { length source_text.now < 2 ^ 32 }
        requires ascii { IsAscii source_text.now }
        ensures { (joined : Bool) → result ≡ record { units = literal_units joined 0 (chars source_text.now); place = 0; first = 0; text = source_text.now } }
    {
        Reader {
            source_text,
            units: source_text.as_bytes(),
            index: 0,
            offset: 0,
            first: 0,
        }
    }
}

impl<'a, S: UnitSource> Reader<'a, S> {
    /// The offset at the place, in bytes. No place before has a larger one.
    #[inline]
    pub fn offset(&self) -> u32
        ensures value { result ≡ offset_of self.now }
        ensures within { result ≤ length self.now.text }
        ensures order { (place : ℕ) → place ≤ self.now.place → offset_at self.now.first self.now.units place ≤ result }
    {
        self.offset
    }

    /// The place and its offset, to come back to.
    pub fn checkpoint(&self) -> (usize, u32)
        ensures value { result ≡ (self.now.place, offset_of self.now) }
        ensures within { self.now.place ≤ length self.now.units }
    {
        (self.index, self.offset)
    }

    /// Moves to a checkpoint of this reader, back or on.
    pub fn rewind(&mut self, checkpoint: (usize, u32))
        requires place { checkpoint.0 ≤ length self.old.units }
        requires offset { checkpoint.1 ≡ offset_at self.old.first self.old.units checkpoint.0 }
        ensures { self.new ≡ record self.old { place = checkpoint.0 } }
    {
        self.index = checkpoint.0;
        self.offset = checkpoint.1;
    }

    /// Moves one place on, or does nothing at the end.
    #[inline]
    pub fn advance(&mut self)
        ensures { self.new ≡ move_on 1 self.old }
    {
        self.skip(1);
    }

    /// Moves n places on, or to the end where fewer are left.
    #[inline]
    pub fn skip(&mut self, count: usize)
        ensures { self.new ≡ move_on count self.old }
    {
        let ahead = self.ahead();
        let moved = count.min(ahead.len());
        if moved > 0 {
            let end = ahead.end_of(moved);
            self.offset = end;
            self.index += moved;
        }
    }

    /// The value of the unit at the place.
    #[inline]
    pub fn peek(&self) -> Option<u32>
        ensures { result ≡ front (rest self.now) }
    {
        self.ahead().first()
    }

    /// Moves over the character where it stands at the place, and says whether it does.
    pub fn eat(&mut self, ch: char) -> bool
        ensures value { result ≡ begins (ch ∷ []) (rest self.old) }
        ensures reader { self.new ≡ (if result then move_on 1 self.old else self.old) }
    {
        if self.peek() != Some(ch as u32) {
            return false;
        }
        self.advance();
        true
    }

    /// The units from the place to the end.
    #[tactic(auto, using(crate::proofs::CodePoints::code_points_from))]
    #[inline(always)]
    pub fn ahead(&self) -> Ahead<'_, S::Unit>
        ensures units { result ≡ rest self.now }
        ensures code_points { All (λ unit. unit.value ≤ 0x10FFFF) result }
        ensures within { self.now.place ≤ length self.now.units }
        ensures short { length self.now.units < 2 ^ 63 }
    {
        self.units.all().from(self.index)
    }
}

/// The units of a text in quotes, a template where it begins with a grave accent, else a string.
fn quoted_units(
    alloc: Global,
    source_text: &str,
    joined: bool,
    standard: bool,
) -> Result<List<CodePoint>, ReaderFault>
    requires { length source_text.now < 2 ^ 32 }
    ensures ok { IfOk result (Decodes standard joined (chars source_text.now)) }
    ensures err { IfErr result (λ fault. (fault ≡ ReaderFault.OutOfMemory) ⊎ IsQuotedFault standard joined (chars source_text.now) fault) }
    ensures decodes { (units : List UnitValue) → Decodes standard joined (chars source_text.now) units → IfErr result (λ fault. fault ≡ ReaderFault.OutOfMemory) }
    ensures refuses { (f : FaultValue) → IsQuotedFault standard joined (chars source_text.now) f → MatchResult result (λ units. ⊥) (λ fault. (fault ≡ ReaderFault.OutOfMemory) ⊎ (fault ≡ f)) }
{
    let options = Options {
        strict_mode: false,
        span_offset: 0,
        combine_surrogate_pair: joined,
        standard_strings: standard,
    };
    if is_template(source_text) {
        let template = template_literal_parser::Parser::new(alloc, source_text, options)?;
        Ok(template.parse()?.body)
    } else {
        let string = string_literal_parser::Parser::new(alloc, source_text, options)?;
        Ok(string.parse()?.body)
    }
}

/// Whether a text in quotes is a template: one that begins with a grave accent.
fn is_template(source_text: &str) -> bool
    ensures { result ≡ front_is is_grave_accent (chars source_text.now) }
{
    source_text.starts_with('`')
}
