ghost use Rattle.std.specs.Prelude.{◌≡◌, true, false, map};
ghost use Rattle.rx_ast.specs.ClassTree.{members, mirror_contents, mirror_class, range, strings as disjunction};
ghost use Rattle.rx_base.specs.Writing.{Written};
ghost use Rattle.rx_ast.specs.Texts.{class_opener, operator_text as operator};
ghost use Rattle.rx_model.specs.Spelling.ClassText.{member_text, members_text, class_text, characters_text, strings_text, barred_strings_text};
ghost use Rattle.rx_tools.specs.Leaves.{is_nested as is_class, is_flat as flat};
ghost use Rattle.rx_tools.specs.Utf8.{utf8};

use crate::character::{Place, write_character};
use crate::property::write_property;
use crate::write::{write_char, write_str};
use rx_ast::parts::{class_escape_text, operator_text};
use rx_ast::{
    Character, CharacterClass, CharacterClassContents, CharacterClassContentsKind,
    CharacterClassRange, ClassString, ClassStringDisjunction,
};
use rx_base::{Failed, TextSink};
use rx_model::Mode;

/// Writes the bracket that opens a class, and `^` after it where the class is negative.
#[inline(always)]
pub fn write_opener<W: TextSink>(sink: &mut W, negative: bool) -> Result<(), Failed>
    ensures { Written W.taken W.fixed W.faults sink.old sink.new result (utf8 (class_opener negative)) }
{
    if negative {
        write_char(sink, '[')?;
        write_char(sink, '^')
    } else {
        write_char(sink, '[')
    }
}

/// Writes a range.
#[inline(always)]
fn write_range<W: TextSink>(
    sink: &mut W,
    mode: Mode,
    it: &CharacterClassRange,
) -> Result<(), Failed>
    ensures { Written W.taken W.fixed W.faults sink.old sink.new result (utf8 (member_text mode (range it.now))) }
{
    write_character(sink, mode, Place::InClass, it.min.value)?;
    write_char(sink, '-')?;
    write_character(sink, mode, Place::InClass, it.max.value)
}

fn write_characters<W: TextSink>(
    sink: &mut W,
    mode: Mode,
    characters: &[Character],
) -> Result<(), Failed>
    ensures { Written W.taken W.fixed W.faults sink.old sink.new result (utf8 (characters_text mode characters.now)) }
{
    for c in characters {
        write_character(sink, mode, Place::InClass, c.value)?;
    }
    Ok(())
}

/// Writes each string after a bar.
fn write_barred_strings<W: TextSink>(
    sink: &mut W,
    mode: Mode,
    strings: &[ClassString],
) -> Result<(), Failed>
    ensures { Written W.taken W.fixed W.faults sink.old sink.new result (utf8 (barred_strings_text mode strings.now)) }
{
    for string in strings {
        write_char(sink, '|')?;
        write_characters(sink, mode, string.body.as_slice())?;
    }
    Ok(())
}

/// Writes strings with bars between them.
fn write_strings<W: TextSink>(
    sink: &mut W,
    mode: Mode,
    strings: &[ClassString],
) -> Result<(), Failed>
    ensures { Written W.taken W.fixed W.faults sink.old sink.new result (utf8 (strings_text mode strings.now)) }
{
    match strings.split_first() {
        None => Ok(()),
        Some((first, rest)) => {
            write_characters(sink, mode, first.body.as_slice())?;
            write_barred_strings(sink, mode, rest)
        }
    }
}

fn write_string_disjunction<W: TextSink>(
    sink: &mut W,
    mode: Mode,
    it: &ClassStringDisjunction,
) -> Result<(), Failed>
    ensures { Written W.taken W.fixed W.faults sink.old sink.new result (utf8 (member_text mode (disjunction it.now))) }
{
    write_str(sink, "\\q{")?;
    write_strings(sink, mode, it.body.as_slice())?;
    write_char(sink, '}')
}

#[inline]
#[tactic(auto, using(rx_ast::proofs::ClassEquations::class_mirrors))]
fn is_nested(contents: &CharacterClassContents) -> bool
    ensures { result ≡ is_class (mirror_contents contents.now) }
{
    match contents {
        CharacterClassContents::NestedCharacterClass(_) => true,
        CharacterClassContents::CharacterClassRange(_) => false,
        CharacterClassContents::CharacterClassEscape(_) => false,
        CharacterClassContents::UnicodePropertyEscape(_) => false,
        CharacterClassContents::Character(_) => false,
        CharacterClassContents::ClassStringDisjunction(_) => false,
    }
}

/// Whether no class stands in the class.
pub fn is_flat(class: &CharacterClass) -> bool
    ensures { result ≡ flat (mirror_class class.now) }
{
    let all_contents = class.body.as_slice();
    for contents in all_contents {
        if is_nested(contents) {
            return false;
        }
    }
    true
}

/// Writes one of a class's contents that is no class.
#[tactic(auto, using(crate::proofs::Pieces::in_pieces, rx_ast::proofs::ClassEquations::class_mirrors))]
pub fn write_flat_contents<W: TextSink>(
    sink: &mut W,
    mode: Mode,
    contents: &CharacterClassContents,
) -> Result<(), Failed>
    requires { is_class (mirror_contents contents.now) ≡ false }
    ensures { Written W.taken W.fixed W.faults sink.old sink.new result (utf8 (member_text mode (mirror_contents contents.now))) }
{
    match contents {
        CharacterClassContents::CharacterClassRange(it) => write_range(sink, mode, it),
        CharacterClassContents::CharacterClassEscape(it) => {
            write_str(sink, class_escape_text(it.kind))
        }
        CharacterClassContents::UnicodePropertyEscape(it) => write_property(sink, it),
        CharacterClassContents::Character(it) => {
            write_character(sink, mode, Place::InClass, it.value)
        }
        CharacterClassContents::ClassStringDisjunction(it) => {
            write_string_disjunction(sink, mode, it)
        }
        CharacterClassContents::NestedCharacterClass(_) => unreachable!(),
    }
}

/// Writes one of a class's contents. Most are characters and ranges, so it is inlined for these alone.
#[inline(always)]
#[cycle(class)]
#[tactic(auto, using(rx_ast::proofs::ClassSizes::class_sizes, rx_ast::proofs::ClassEquations::class_mirrors))]
fn write_contents<W: TextSink>(
    sink: &mut W,
    mode: Mode,
    contents: &CharacterClassContents,
) -> Result<(), Failed>
    ensures { Written W.taken W.fixed W.faults sink.old sink.new result (utf8 (member_text mode (mirror_contents contents.now))) }
{
    match contents {
        CharacterClassContents::Character(it) => {
            write_character(sink, mode, Place::InClass, it.value)
        }
        CharacterClassContents::CharacterClassRange(it) => write_range(sink, mode, it),
        CharacterClassContents::NestedCharacterClass(it) => write_class(sink, mode, it),
        CharacterClassContents::CharacterClassEscape(_) => {
            write_flat_contents(sink, mode, contents)
        }
        CharacterClassContents::UnicodePropertyEscape(_) => {
            write_flat_contents(sink, mode, contents)
        }
        CharacterClassContents::ClassStringDisjunction(_) => {
            write_flat_contents(sink, mode, contents)
        }
    }
}

/// Writes contents with the operator of their kind between them.
#[cycle(class)]
#[tactic(auto, using(rx_ast::proofs::ClassSizes::class_sizes))]
fn write_all_contents<W: TextSink>(
    sink: &mut W,
    mode: Mode,
    kind: CharacterClassContentsKind,
    all_contents: &[CharacterClassContents],
) -> Result<(), Failed>
    ensures { Written W.taken W.fixed W.faults sink.old sink.new result (utf8 (members_text mode (operator kind) (members (map mirror_contents all_contents.now)))) }
{
    let operator = operator_text(kind);
    let mut before = "";
    for contents in all_contents {
        write_str(sink, before)?;
        write_contents(sink, mode, contents)?;
        before = operator;
    }
    Ok(())
}

/// Writes a class. It calls itself for each class in it, so it is safe only where classes are not nested deep.
#[cycle(class)]
#[tactic(auto, using(rx_ast::proofs::ClassSizes::class_sizes))]
pub fn write_class<W: TextSink>(
    sink: &mut W,
    mode: Mode,
    class: &CharacterClass,
) -> Result<(), Failed>
    ensures { Written W.taken W.fixed W.faults sink.old sink.new result (utf8 (class_text mode (mirror_class class.now))) }
{
    write_opener(sink, class.negative)?;
    write_all_contents(sink, mode, class.kind, class.body.as_slice())?;
    write_char(sink, ']')
}
