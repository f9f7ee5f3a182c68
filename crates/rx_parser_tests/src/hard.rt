//! Hard texts: deep ones, long ones, and those at the last offsets.
use crate::reading::{ARGUMENT, LAST_ARGUMENT, LAST_LITERAL, LITERAL};
use rx_rows::agree;
use std::test::Fail;

const LITERALS: &str =
    r"u ‹1000 (›a‹1000 )› => Unicode itself 0..2001 1 | 0..2001 0..2001  1..2000 1;
u ‹1000 (› => Diagnostic(UnterminatedPattern { span: Span { start: 999, end: 1000 }, what: CapturingGroup })
v ‹1000 [›a‹1000 ]› => Sets itself 0..2001 1 | 0..2001 0..2001 other;
v ‹1000 [› => Diagnostic(UnterminatedPattern { span: Span { start: 999, end: 1000 }, what: NestedClass })
u ‹1000 |› => Unicode itself 0..1000 1001 | 0..0 | 1..1 | 2..2 | 3..3
u ‹999 |› => Unicode itself 0..999 1000 | 0..0 | 1..1 | 2..2 | 3..3
u ‹1001 |› => Unicode itself 0..1001 1002 | 0..0 | 1..1 | 2..2 | 3..3
u a{‹30 9›} => Diagnostic(TooLargeNumberDigits { span: Span { start: 2, end: 21 }, what: Decimal })
u \‹30 1› => Diagnostic(InvalidIndexedReference { span: Span { start: 0, end: 31 }, max: 0 })
- \‹30 1› => Legacy I111111111111111111111111111 0..31 1 | 0..31 27..28 Symbol 31; 28..29 Symbol 31; 29..30 Symbol 31; 30..31 Symbol 31;
u ‹2000 (?<n#>)›\k<n1999> => Unicode itself 0..18899 1 | 0..18899 18860..18870 n1997 18869..18869 1; 18870..18880 n1998 18879..18879 1; 18880..18890 n1999 18889..18889 1; 18890..18899 reference n1999;
u ‹2000 (?<n#>)›(?<n0>) => Diagnostic(DuplicatedCapturingGroupNames { first: Span { start: 3, end: 5 }, second: Span { start: 18893, end: 18895 } })
v [az-a] => Diagnostic(CharacterClassRangeOutOfOrder { span: Span { start: 2, end: 5 }, what: ClassSet })
v [a\u] => Diagnostic(InvalidUnicodeEscapeSequence { span: Span { start: 3, end: 4 } })
v [^[^\q{ab}]] => Diagnostic(CharacterClassContentsInvalidOperands { span: Span { start: 2, end: 11 } })
u (?<\u{100000000}>x) => Diagnostic(TooLargeNumberDigits { span: Span { start: 6, end: 14 }, what: Hex })";

const ARGUMENTS: &str =
    r#""u" "a\uDE00" => Unicode a\u{DE00} 1..8 1 | 1..8 1..2 Symbol 61; 2..8 UnicodeEscape de00;
"\uD83D" "a" => Diagnostic(UnknownFlag { span: Span { start: 1, end: 7 }, flag: 55357 })"#;

const LAST_LITERALS: &str =
    "u  => Unicode (?:) 4294967291..4294967295 1 | 4294967291..4294967295 4294967291..4294967295;
x a => Diagnostic(UnknownFlag { span: Span { start: 4294967294, end: 4294967295 }, flag: 120 })";

const LAST_ARGUMENTS: &str =
    r#"- "" => Legacy (?:) 4294967290..4294967294 1 | 4294967290..4294967294 4294967290..4294967294;
'u' "a => Diagnostic(InvalidInput { span: Span { start: 4294967289, end: 4294967291 } })
'x' "a => Diagnostic(UnknownFlag { span: Span { start: 4294967293, end: 4294967294 }, flag: 120 })"#;

#[test]
fn hard_texts(rt: HostRuntime) -> Result<(), Fail> {
    agree(rt.alloc(), &LITERAL, LITERALS)?;
    agree(rt.alloc(), &ARGUMENT, ARGUMENTS)?;
    agree(rt.alloc(), &LAST_LITERAL, LAST_LITERALS)?;
    agree(rt.alloc(), &LAST_ARGUMENT, LAST_ARGUMENTS)
}
