//! The sets of characters and the names of properties.

use rx_rows::{Call, agree};
use rx_tables::{
    is_class_set_reserved_double_punctuator, is_class_set_reserved_punctuator,
    is_class_set_syntax_character, is_decimal_digit, is_identifier_part_char,
    is_identifier_start_char, is_octal_digit, is_syntax_character, is_unicode_id_continue,
    is_unicode_id_start, is_unicode_property_name_character, is_unicode_property_value_character,
    is_valid_lone_unicode_property, is_valid_lone_unicode_property_of_strings, is_valid_unicode,
    is_valid_unicode_property, map_c_ascii_letter, map_control_escape, map_hex_digit,
    map_short_escape,
};
use std::alloc::{AllocError, Global};
use std::test::Fail;

/// Which of the sets hold a code point.
fn holding(code: u32) -> [bool; 13] {
    [
        is_syntax_character(code),
        is_class_set_syntax_character(code),
        is_class_set_reserved_double_punctuator(code, code),
        is_class_set_reserved_double_punctuator(code, code.saturating_add(1)),
        is_class_set_reserved_punctuator(code),
        is_decimal_digit(code),
        is_octal_digit(code),
        is_unicode_property_name_character(code),
        is_unicode_property_value_character(code),
        is_unicode_id_start(code),
        is_unicode_id_continue(code),
        is_identifier_start_char(code),
        is_identifier_part_char(code),
    ]
}

/// The characters up to U+0080 that a set holds, in order.
fn members(alloc: Global, set: usize) -> Result<String, AllocError> {
    let mut members = String::new(alloc);
    for byte in 0..=0x80u8 {
        if holding(u32::from(byte)).get(set) == Some(&true) {
            members.push(char::from(byte))?;
        }
    }
    Ok(members)
}

/// The characters of each set, in the order of `holding`.
const MEMBERS: [&str; 13] = [
    r"$()*+.?[\]^{|}",
    r"()-/[\]{|}",
    "!#$%&*+,.:;<=>?@^`~",
    "",
    "!#%&,-:;<=>@`~",
    "0123456789",
    "01234567",
    "ABCDEFGHIJKLMNOPQRSTUVWXYZ_abcdefghijklmnopqrstuvwxyz",
    "0123456789ABCDEFGHIJKLMNOPQRSTUVWXYZ_abcdefghijklmnopqrstuvwxyz",
    "ABCDEFGHIJKLMNOPQRSTUVWXYZabcdefghijklmnopqrstuvwxyz",
    "0123456789ABCDEFGHIJKLMNOPQRSTUVWXYZ_abcdefghijklmnopqrstuvwxyz",
    "$ABCDEFGHIJKLMNOPQRSTUVWXYZ_abcdefghijklmnopqrstuvwxyz",
    "$0123456789ABCDEFGHIJKLMNOPQRSTUVWXYZ_abcdefghijklmnopqrstuvwxyz",
];

#[test]
fn sets_in_ascii(rt: HostRuntime) -> Result<(), AllocError> {
    for (set, wanted) in MEMBERS.iter().enumerate() {
        let members = members(rt.alloc(), set)?;
        assert!(rt; members.as_str() == *wanted, "{members}");
    }
    Ok(())
}

/// The values as a control escape, as the letter of a control escape, as a hexadecimal digit and as a short escape.
fn mapped_values(code: u32) -> [Option<u32>; 4] {
    [
        map_control_escape(code),
        map_c_ascii_letter(code),
        map_hex_digit(code),
        map_short_escape(code),
    ]
}

/// Code points past ASCII: each with whether it is one at all, whether an identifier may begin with it, and whether it may stand in one.
const PAST_ASCII: [(u32, bool, bool, bool); 11] = [
    (0x80, true, false, false),
    (0xAA, true, true, true),
    (0xB7, true, false, true),
    (0x124, true, true, true),
    (0x130, true, true, true),
    (0x161, true, true, true),
    (0xD800, true, false, false),
    (0xDFFF, true, false, false),
    (0xFFFF, true, false, false),
    (0x10FFFF, true, false, false),
    (0x110000, false, false, false),
];

#[test]
fn only_identifiers_go_past_ascii(rt: HostRuntime) {
    for (code, valid, start, part) in PAST_ASCII {
        let sets = [
            false, false, false, false, false, false, false, false, false, start, part, start, part,
        ];
        let as_wanted = (is_valid_unicode(code) == valid)
            & (holding(code) == sets)
            & (mapped_values(code) == [None; 4]);
        assert!(rt; as_wanted, "at {code:X}");
    }
}

/// Asked are what is asked of and a text: of a `map` a character, of a `word` a lone word, of a `value` a name and a value. The answer has what the maps have;
/// whether the word is a property of characters, and whether it is one of strings; or whether name and value are a property.
struct Lookup;

impl Call for Lookup {
    fn answer(&self, alloc: Global, asked: &str) -> Result<String, Fail> {
        Ok(looked_up(alloc, asked).ok_or(asked)?)
    }
}

fn looked_up(alloc: Global, asked: &str) -> Option<String> {
    let (what, text) = asked.split_once(' ')?;
    match what {
        "map" => maps(alloc, text.chars().next()?).ok(),
        "word" => word(alloc, text).ok(),
        _ => value(alloc, text.split_once('=')?).ok(),
    }
}

fn maps(alloc: Global, character: char) -> Result<String, AllocError> {
    format!(in alloc; "{:?}", mapped_values(u32::from(character)))
}

fn word(alloc: Global, word: &str) -> Result<String, AllocError> {
    let of_characters = is_valid_lone_unicode_property(word);
    let of_strings = is_valid_lone_unicode_property_of_strings(word);
    format!(in alloc; "{of_characters} {of_strings}")
}

fn value(alloc: Global, (name, value): (&str, &str)) -> Result<String, AllocError> {
    format!(in alloc; "{}", is_valid_unicode_property(name, value))
}

#[test]
fn texts_are_looked_up(rt: HostRuntime) -> Result<(), Fail> {
    let rows = "map / => [None, None, None, Some(47)]
map 0 => [None, None, Some(0), None]
map 9 => [None, None, Some(9), None]
map : => [None, None, None, None]
map @ => [None, None, None, None]
map A => [None, Some(1), Some(10), None]
map F => [None, Some(6), Some(15), None]
map G => [None, Some(7), None, None]
map Z => [None, Some(26), None, None]
map [ => [None, None, None, Some(91)]
map ` => [None, None, None, None]
map a => [None, Some(1), Some(10), None]
map e => [None, Some(5), Some(14), None]
map f => [Some(12), Some(6), Some(15), Some(12)]
map g => [None, Some(7), None, None]
map m => [None, Some(13), None, None]
map n => [Some(10), Some(14), None, Some(10)]
map o => [None, Some(15), None, None]
map q => [None, Some(17), None, None]
map r => [Some(13), Some(18), None, Some(13)]
map s => [None, Some(19), None, None]
map t => [Some(9), Some(20), None, Some(9)]
map u => [None, Some(21), None, None]
map v => [Some(11), Some(22), None, Some(11)]
map w => [None, Some(23), None, None]
map z => [None, Some(26), None, None]
map { => [None, None, None, Some(123)]
map $ => [None, None, None, Some(36)]
map . => [None, None, None, Some(46)]
map ? => [None, None, None, Some(63)]
map | => [None, None, None, Some(124)]
map } => [None, None, None, Some(125)]
map - => [None, None, None, None]
map _ => [None, None, None, None]
map , => [None, None, None, None]
map é => [None, None, None, None]
map ~ => [None, None, None, None]
map ^ => [None, None, None, Some(94)]
map ] => [None, None, None, Some(93)]
map * => [None, None, None, Some(42)]
map + => [None, None, None, Some(43)]
map ) => [None, None, None, Some(41)]
map ( => [None, None, None, Some(40)]
word ASCII => true false
word XIDS => true false
word ascii => false false
word Xids => false false
word Basic_Emoji => false true
word RGI_Emoji => false true
word RGI_emoji => false false
word Lu => false false
word  => false false
value General_Category=C => true
value gc=Space_Separator => true
value gc=space_separator => false
value gc= => false
value gc=Adlm => false
value Script=Adlm => true
value sc=Unknown => true
value Script_Extensions=Adlm => true
value scx=Unknown => true
value scx=unknown => false
value sc= => false
value sc=C => false
value GC=C => false
value script=Adlm => false
value =C => false
value Any=C => false";
    agree(rt.alloc(), &Lookup, rows)
}
