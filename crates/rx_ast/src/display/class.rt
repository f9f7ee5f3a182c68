ghost use Rattle.std.specs.Prelude.{◌++◌, if◌then◌else◌, [], Some, map};
ghost use Rattle.std.specs.Fmt.{WritesOnOk};
ghost use Rattle.std.specs.Str.{chars, encode_utf8_all};
ghost use Rattle.rx_ast.specs.ClassTree.{members, mirror_class, mirror_contents};
ghost use Rattle.rx_ast.specs.Kinds as kinds;
ghost use Rattle.rx_ast.specs.Shown.{barred_strings_shown, characters_shown, class_shown, member_shown, members_shown, pair_or, shown, strings_shown};
ghost use Rattle.rx_ast.specs.Texts.{operator_text as operator};

use crate::class::{
    CharacterClass, CharacterClassContents, CharacterClassContentsKind, CharacterClassRange,
    ClassString, ClassStringDisjunction,
};
use crate::display::parts::{class_opener, contents_pair, operator_text, write_text};
use std::fmt;
use std::fmt::Display;

impl fmt::Display for CharacterClassRange {
    ghost output = { λ it. Some (encode_utf8_all (shown (kinds.class_range it))) };

    fn fmt<W: fmt::Write>(&self, f: &mut fmt::Formatter<W>) -> fmt::Result {
        write!(f, "{}-{}", self.min, self.max)
    }
}

impl fmt::Display for ClassString {
    ghost output = { λ it. Some (encode_utf8_all (shown (kinds.class_string it))) };

    fn fmt<W: fmt::Write>(&self, f: &mut fmt::Formatter<W>) -> fmt::Result {
        for character in self.body.as_slice() {
            character.fmt(f)?;
        }
        Ok(())
    }
}

impl fmt::Display for ClassStringDisjunction {
    ghost output = { λ it. Some (encode_utf8_all (shown (kinds.string_disjunction it))) };

    fn fmt<W: fmt::Write>(&self, f: &mut fmt::Formatter<W>) -> fmt::Result {
        f.write_str("\\q{")?;
        write_strings(f, self.body.as_slice())?;
        f.write_str("}")
    }
}

/// Writes strings with bars between them.
fn write_strings<W: fmt::Write>(f: &mut fmt::Formatter<W>, strings: &[ClassString]) -> fmt::Result
    ensures { WritesOnOk W.write_str_gives f.old result (encode_utf8_all (strings_shown strings.now)) f.new }
{
    match strings.split_first() {
        None => Ok(()),
        Some((first, rest)) => {
            first.fmt(f)?;
            write_barred_strings(f, rest)
        }
    }
}

/// Writes each string after a bar.
fn write_barred_strings<W: fmt::Write>(
    f: &mut fmt::Formatter<W>,
    strings: &[ClassString],
) -> fmt::Result
    ensures { WritesOnOk W.write_str_gives f.old result (encode_utf8_all (barred_strings_shown strings.now)) f.new }
{
    for string in strings {
        write!(f, "|{string}")?;
    }
    Ok(())
}

impl fmt::Display for CharacterClass {
    ghost output = { λ it. Some (encode_utf8_all (shown (kinds.class (mirror_class it)))) };

    fn fmt<W: fmt::Write>(&self, f: &mut fmt::Formatter<W>) -> fmt::Result {
        write_class(f, self)
    }
}

impl fmt::Display for CharacterClassContents {
    ghost output = { λ it. Some (encode_utf8_all (shown (kinds.class_contents (mirror_contents it)))) };

    fn fmt<W: fmt::Write>(&self, f: &mut fmt::Formatter<W>) -> fmt::Result {
        write_contents(f, self)
    }
}

#[cycle(class)]
#[tactic(auto, using(crate::proofs::ClassSizes::class_sizes))]
pub(super) fn write_class<W: fmt::Write>(
    f: &mut fmt::Formatter<W>,
    class: &CharacterClass,
) -> fmt::Result
    ensures { WritesOnOk W.write_str_gives f.old result (encode_utf8_all (class_shown (mirror_class class.now))) f.new }
{
    write_text(f, class_opener(class.negative))?;
    write_all_contents(f, class.kind, class.body.as_slice())?;
    write_text(f, "]")
}

/// Writes contents with the operator of their kind between them.
#[cycle(class)]
#[tactic(auto, using(crate::proofs::ClassSizes::class_sizes))]
fn write_all_contents<W: fmt::Write>(
    f: &mut fmt::Formatter<W>,
    kind: CharacterClassContentsKind,
    all_contents: &[CharacterClassContents],
) -> fmt::Result
    ensures { WritesOnOk W.write_str_gives f.old result (encode_utf8_all (members_shown (operator kind) (members (map mirror_contents all_contents.now)))) f.new }
{
    let mut before = "";
    let mut joined = false;
    let mut rest = all_contents;
    while let Some((contents, others)) = rest.split_first() {
        let pair = contents_pair(contents, others);
        write_unless_joined(f, joined, before, pair, contents)?;
        before = operator_text(kind);
        joined = pair.is_some();
        rest = others;
    }
    Ok(())
}

/// Writes the pair, or the contents where they stand alone, unless they were written together with those before them.
#[cycle(class)]
#[tactic(auto, using(crate::proofs::ClassSizes::class_sizes))]
fn write_unless_joined<W: fmt::Write>(
    f: &mut fmt::Formatter<W>,
    joined: bool,
    before: &str,
    pair: Option<char>,
    contents: &CharacterClassContents,
) -> fmt::Result
    ensures { WritesOnOk W.write_str_gives f.old result (encode_utf8_all (if joined then [] else chars before.now ++ pair_or pair (member_shown (mirror_contents contents.now)))) f.new }
{
    if joined {
        return Ok(());
    }
    write_text(f, before)?;
    match pair {
        Some(pair) => f.write_char(pair),
        None => write_contents(f, contents),
    }
}

/// Writes one of a class's contents.
#[cycle(class)]
#[tactic(auto, using(crate::proofs::ClassSizes::class_sizes, crate::proofs::ClassEquations::class_mirrors))]
fn write_contents<W: fmt::Write>(
    f: &mut fmt::Formatter<W>,
    contents: &CharacterClassContents,
) -> fmt::Result
    ensures { WritesOnOk W.write_str_gives f.old result (encode_utf8_all (member_shown (mirror_contents contents.now))) f.new }
{
    match contents {
        CharacterClassContents::NestedCharacterClass(it) => write_class(f, it),
        CharacterClassContents::CharacterClassRange(it) => (**it).fmt(f),
        CharacterClassContents::CharacterClassEscape(it) => it.fmt(f),
        CharacterClassContents::UnicodePropertyEscape(it) => (**it).fmt(f),
        CharacterClassContents::Character(it) => it.fmt(f),
        CharacterClassContents::ClassStringDisjunction(it) => (**it).fmt(f),
    }
}
