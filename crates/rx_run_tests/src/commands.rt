//! The commands `display`, `support`, `match`, `steps`, `paint`, `lint` and `rewrite`, with `strict` and `standard` before them and alone, the texts of `--help` and `--version`, and words that are none of the stated lists.
use crate::runs::{AT_ONCE, Runs, outcome};
use rx_rows::agree;
use std::test::Fail;

const LINES: &str =
    r#"regexp strict | L«9»u«9»(?<a>x)|(?<a>y) => 1 [err«9»duplicated_capturing_group_names«9»3..4,11..12«A»]
regexp strict | L«9»u«9»\A => 1 [err«9»parse_pattern_incomplete«9»1..1«A»]
regexp strict | L«9»u«9»(\z) => 1 [err«9»unterminated_pattern«9»0..2«A»]
regexp strict | L«9»«9»\Ab => 0 [ok«9»legacy«9»Ab«A»]
regexp strict | L«9»u«9»\x41{1,} => 0 [ok«9»unicode«9»A+«A»]
regexp strict display | L«9»u«9»\x41{1,}«A»L«9»v«9»\Z => 1 [ok«9»unicode«9»5«9»\x41+«A»err«9»parse_pattern_incomplete«9»1..1«A»]
regexp strict support sticky,named_capture_groups | L«9»y«9»(?<a>b)«A»L«9»«9»(?<a>b)|(?<a>c) => 1 [ok«9»1«9»1«A»err«9»duplicated_capturing_group_names«9»3..4,11..12«A»]
regexp standard | L«9»u«9»(?<a>x)|(?<a>y)\z«A»C«9»«9»"\x41" => 0 [ok«9»unicode«9»(?<a>x)|(?<a>y)\z«A»ok«9»legacy«9»A«A»]
regexp standard display | L«9»u«9»\x41\A => 0 [ok«9»unicode«9»6«9»\x41\A«A»]
regexp standard support buffer_boundaries | L«9»u«9»\A«A»C«9»«9»"a" => 1 [ok«9»0«9»1«A»bad«A»]
regexp display | C«9»«9»"\n" => 0 [ok«9»legacy«9»1«9»«A»«A»]
regexp display | L«9»«9»\477 => 0 [ok«9»legacy«9»4«9»\477«A»]
regexp display | L«9»«9»\0022 => 0 [ok«9»legacy«9»5«9»\0022«A»]
regexp display | L«9»«9»\cA => 0 [ok«9»legacy«9»3«9»\cA«A»]
regexp display | L«9»u«9»\x41\u0042\u{43}\u{1F600} => 0 [ok«9»unicode«9»25«9»\x41\u0042\u0043\u{1F600}«A»]
regexp display | L«9»u«9»é => 0 [ok«9»unicode«9»2«9»é«A»]
regexp display | L«9»u«9»(?<a>x)(?<a>y) => 1 [err«9»duplicated_capturing_group_names«9»3..4,10..11«A»]
regexp display | R«9»«9»a => 1 [bad«A»]
regexp display | L«9»u«9»a«A»L«9»gg«9»a«A»X => 1 [ok«9»unicode«9»1«9»a«A»err«9»duplicated_flags«9»1..2«A»bad«A»]
regexp support look_behind_assertions,sticky | L«9»y«9»(?<=a)b => 0 [ok«9»1«9»1«A»]
regexp support sticky,look_behind_assertions | L«9»«9»(?=a)b => 0 [ok«9»0«9»0«A»]
regexp support pattern_modifiers | L«9»g«9»(?i:a) => 0 [ok«9»0«9»1«A»]
regexp support match_indices | L«9»d«9»(?i:a) => 0 [ok«9»1«9»0«A»]
regexp support dot_all,unicode,unicode_sets | L«9»v«9»a«A»L«9»u«9»a«A»L«9»s«9»a«A»L«9»y«9»a => 0 [ok«9»1«9»0«A»ok«9»1«9»0«A»ok«9»1«9»0«A»ok«9»0«9»0«A»]
regexp support named_capture_groups | L«9»«9»(?<a>b) => 0 [ok«9»0«9»1«A»]
regexp support duplicate_named_capture_groups | L«9»«9»(?<a>b)|(?<a>c)«A»L«9»«9»(?<a>b) => 0 [ok«9»0«9»1«A»ok«9»0«9»0«A»]
regexp support unicode_property_escapes | L«9»u«9»[\p{Lu}] => 0 [ok«9»0«9»1«A»]
regexp support buffer_boundaries | L«9»u«9»\A«A»L«9»v«9»(?:a|\z)*«A»L«9»u«9»(?<=\Z)a => 0 [ok«9»0«9»1«A»ok«9»0«9»1«A»ok«9»0«9»1«A»]
regexp support buffer_boundaries,sticky | L«9»y«9»\A\z\Z«A»L«9»u«9»^\b\B$«A»L«9»u«9»[\\Az] => 0 [ok«9»1«9»0«A»ok«9»0«9»0«A»ok«9»0«9»0«A»]
regexp support look_behind_assertions | L«9»u«9»\A => 0 [ok«9»0«9»0«A»]
regexp support sticky | C«9»«9»"a" => 1 [bad«A»]
regexp support sticky | L«9»u«9»(?<a>x)(?<a>y) => 1 [err«9»duplicated_capturing_group_names«9»3..4,10..11«A»]
regexp support sticky | L«9»u«9»é*+ => 1 [err«9»lone_quantifier«9»3..4«A»]
regexp support sticky | L«9»gg«9»a => 1 [err«9»duplicated_flags«9»1..2«A»]
regexp support sticky | L«9»y => 1 [bad«A»]
regexp match 2 b | L«9»u«9»a|b => 0 [ok«9»0..1«9»«A»]
regexp match 1 b | L«9»u«9»a|b => 1 [spent«A»]
regexp match 4 b | L«9»u«9»(a*)* => 0 [ok«9»0..0«9»-«A»]
regexp match 3 b | L«9»u«9»(a*)* => 1 [spent«A»]
regexp match 1000 1053 | L«9»u«9»(?<=(\d+)(\d+))$ => 0 [ok«9»4..4«9»0..1,1..4«A»]
regexp match 9 a | L«9»u«9»a\p{L} => 1 [unsupported«9»1..6«A»]
regexp match 9 a | L«9»gi«9»a«A»L«9»iu«9»\p{L} => 1 [unsupported«9»flag«A»unsupported«9»flag«A»]
regexp match 9 a | L«9»u«9»(?:b|(?-i:a))«A»L«9»v«9»b[\q{ab}] => 1 [unsupported«9»7..9«A»unsupported«9»2..8«A»]
regexp match 0000000009 a | L«9»«9»a«A»L«9»«9»b«A»L«9»«9»(b)?|a => 0 [ok«9»0..1«9»«A»ok«9»none«A»ok«9»0..0«9»-«A»]
regexp match 0 a | L«9»«9»(?:)«A»L«9»«9»a => 1 [spent«A»spent«A»]
regexp match 9 😀 | L«9»«9»$«A»L«9»u«9»$«A»L«9»v«9».«A»L«9»«9». => 0 [ok«9»2..2«9»«A»ok«9»1..1«9»«A»ok«9»0..1«9»«A»ok«9»0..1«9»«A»]
regexp match 9 a | C«9»«9»"a"«A»L«9»u«9»(a«A»L«9»gg«9»a => 1 [bad«A»err«9»unterminated_pattern«9»0..2«A»err«9»duplicated_flags«9»1..2«A»]
regexp strict match 9 y | L«9»u«9»(?<a>x)|(?<a>y) => 1 [err«9»duplicated_capturing_group_names«9»3..4,11..12«A»]
regexp standard match 9 y | L«9»u«9»(?<a>x)|(?<a>y) => 0 [ok«9»0..1«9»-,0..1«A»]
regexp steps b 2 | L«9»u«9»a|b«A»L«9»u«9»(a*)* => 1 [ok«9»2«A»more«A»]
regexp steps aaaaaaaaaa 1000000000000000000 | L«9»«9»a*b«A»L«9»«9»a* => 0 [ok«9»143«A»ok«9»12«A»]
regexp steps aaaaaaaaaa 142 | L«9»«9»a*b«A»L«9»i«9»a*b«A»L«9»u«9»\P{L}a => 1 [more«A»unsupported«9»flag«A»unsupported«9»0..5«A»]
regexp strict steps b 9 | L«9»«9»a|b => 0 [ok«9»2«A»]
regexp standard steps b 9 | L«9»«9»a|b«A»C«9»«9»"b" => 1 [ok«9»2«A»bad«A»]
regexp paint | L«9»u«9»(a|\.)+«A»C«9»«9»"a" => 1 [ok«9»0..1=group 1..2=char 2..3=bar 3..5=escape 5..6=group 6..7=quantifier«A»bad«A»]
regexp strict paint | L«9»«9» => 0 [ok«9»0..4=group«A»]
regexp standard paint color | L«9»u«9»(a«A»C«9»«9»"a" => 1 [err«9»unterminated_pattern«9»0..2«A»bad«A»]
regexp lint | L«9»u«9»[aba]|«A»L«9»u«9»a|b«A»C«9»«9»"a" => 1 [ok«9»repeated_member@3..4 empty_alternative@6..6«A»ok«9»«A»bad«A»]
regexp strict lint | L«9»u«9»(?<y>[])a{1} => 0 [ok«9»unused_name@0..8 empty_class@5..7 useless_quantifier@8..12«A»]
regexp standard lint | L«9»u«9»A|b|\x41«A»L«9»u«9»(a => 1 [ok«9»repeated_alternative@4..8«A»err«9»unterminated_pattern«9»0..2«A»]
regexp rewrite | L«9»su«9»(?<y>.)\k<y>2«A»L«9»m«9»^a$ => 0 [ok«9»u«9»([^])\1\x32«A»ok«9»«9»(?<![^\n\r\u2028\u2029])a(?![^\n\r\u2028\u2029])«A»]
regexp rewrite | L«9»u«9»(?<a>x)|(?<a>y)«A»C«9»«9»"a"«A»L«9»gg«9»a => 1 [err«9»name_used_twice«9»0..7,8..15«A»bad«A»err«9»duplicated_flags«9»1..2«A»]
regexp strict rewrite | L«9»u«9»(?<a>x)|(?<a>y) => 1 [err«9»duplicated_capturing_group_names«9»3..4,11..12«A»]
regexp rewrite dot_all,multiline | L«9»gms«9»(?<a>^.) => 0 [ok«9»g«9»(?<a>(?<![^\n\r\u2028\u2029])[^])«A»]
regexp standard rewrite pattern_modifiers | L«9»«9»a(?s-i:b)«A»L«9»s«9»(?-s:.) => 1 [err«9»unsupported«9»3..6«A»ok«9»s«9»(?:[^\n\r\u2028\u2029])«A»]"#;

const WORDS: &str = r"regexp support sticky,sticky => 2 unread []
regexp support sticky,dot_all,sticky => 2 unread []
regexp support => 2 unread []
regexp support  => 2 unread []
regexp support , => 2 unread []
regexp support ,sticky => 2 unread []
regexp support sticky, => 2 unread []
regexp support sticky,,dot_all => 2 unread []
regexp support Sticky => 2 unread []
regexp support sticky;dot_all => 2 unread []
regexp support sticky dot_all => 2 unread []
regexp support sticky,other => 2 unread []
regexp Support sticky => 2 unread []
regexp support buffer_boundaries,buffer_boundaries => 2 unread []
regexp support buffer_boundary => 2 unread []
regexp display x => 2 unread []
regexp Display => 2 unread []
regexp display strict => 2 unread []
regexp display display => 2 unread []
regexp display standard => 2 unread []
regexp strict x => 2 unread []
regexp Strict => 2 unread []
regexp strict strict => 2 unread []
regexp strict standard => 2 unread []
regexp strict support => 2 unread []
regexp strict support sticky,sticky => 2 unread []
regexp strict support sticky sticky => 2 unread []
regexp strict display display => 2 unread []
regexp strict gen 1 1 => 2 unread []
regexp strict --help => 2 unread []
regexp strict --version => 2 unread []
regexp Standard => 2 unread []
regexp standard x => 2 unread []
regexp standard standard => 2 unread []
regexp standard strict => 2 unread []
regexp standard strict display => 2 unread []
regexp standard support => 2 unread []
regexp standard gen 1 1 => 2 unread []
regexp support sticky strict => 2 unread []
regexp match => 2 unread []
regexp match 1 => 2 unread []
regexp match 1 a b => 2 unread []
regexp match a 1 => 2 unread []
regexp match -1 a => 2 unread []
regexp match +1 a => 2 unread []
regexp match  a => 2 unread []
regexp match 1a a => 2 unread []
regexp match 12345678901 a => 2 unread []
regexp Match 1 a => 2 unread []
regexp match strict 1 a => 2 unread []
regexp match display 1 a => 2 unread []
regexp strict match 1 => 2 unread []
regexp strict standard match 1 a => 2 unread []
regexp steps => 2 unread []
regexp steps a => 2 unread []
regexp steps 1 a => 2 unread []
regexp steps a 1 1 => 2 unread []
regexp steps a -1 => 2 unread []
regexp steps a 12345678901234567890 => 2 unread []
regexp paint x => 2 unread []
regexp Paint => 2 unread []
regexp paint paint => 2 unread []
regexp paint color x => 2 unread []
regexp paint strict => 2 unread []
regexp color => 2 unread []
regexp lint x => 2 unread []
regexp Lint => 2 unread []
regexp lint lint => 2 unread []
regexp lint strict => 2 unread []
regexp rewrite sticky => 2 unread []
regexp rewrite dot_all,dot_all => 2 unread []
regexp rewrite multiline,dot_all,multiline => 2 unread []
regexp rewrite , => 2 unread []
regexp rewrite dot_all, => 2 unread []
regexp rewrite  => 2 unread []
regexp rewrite dot_all multiline => 2 unread []
regexp rewrite all => 2 unread []
regexp Rewrite => 2 unread []
regexp rewrite strict => 2 unread []
regexp strict rewrite x => 2 unread []
regexp support multiline => 2 unread []
regexp standard steps 1 a => 2 unread []
regexp --help x => 2 unread []
regexp --Help => 2 unread []
regexp help => 2 unread []
regexp -h => 2 unread []
regexp --version => 0 unread [regexp 0.2.0 (a port of oxc_regular_expression 0.156.0)«A»]
regexp --version x => 2 unread []
regexp --help | X«A» | 9 0 9 1 99 => 4 unread []
regexp --version | X«A» | 9 0 9 1 99 => 4 unread []
regexp foo | X«A» | 9 0 9 0 9 => 2 unread []
regexp match 9 ab | L«9»u«9»b«A» | 9 0 9 0 99 => 0 [ok«9»1..2«9»«A»]
regexp match 1 ab | L«9»u«9»b«A» | 9 0 9 0 99 => 1 [spent«A»]
regexp match 9 | L«9»u«9»b«A» | 9 0 9 0 99 => 2 unread []
regexp | L«9»u«9»b«A» | 9 0 9 0 5 => 4 [ok«9»un]";

#[test]
fn lines_and_words_are_answered(rt: HostRuntime) -> Result<(), Fail> {
    let runs = Runs {
        input: "L«9»«9»a«A»",
        ends: AT_ONCE,
    };
    agree(rt.alloc(), &runs, LINES)?;
    agree(rt.alloc(), &runs, WORDS)
}

/// A word that the help lacks.
fn lacking(help: &str) -> Option<&'static str> {
    for word in [
        "strict",
        "standard",
        "display",
        "support",
        "match",
        "steps",
        "paint",
        "lint",
        "rewrite",
        "gen",
        "--help",
        "--version",
        "Status:",
        "Example:",
    ] {
        if !help.contains(word) {
            return Some(word);
        }
    }
    None
}

#[test]
fn help_is_a_text_of_few_lines(rt: HostRuntime) -> Result<(), Fail> {
    let outcome = outcome(rt.alloc(), "regexp --help", b"L\t\ta\n", AT_ONCE)?;
    let is_read = outcome.starts_with("0 unread [") && outcome.ends_with("\n]");
    let is_short = outcome.lines().count() <= 41;
    assert_eq!(rt; (lacking(&outcome), is_read, is_short), (None, true, true));
    Ok(())
}
