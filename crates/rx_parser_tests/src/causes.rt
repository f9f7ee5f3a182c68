//! What patterns are refused for, with all that the refusals say beside their spans.
use crate::reading::LITERAL;
use rx_rows::agree;
use std::test::Fail;

const CAUSES: &str =
    r#"gg a => Diagnostic(DuplicatedFlags { span: Span { start: 1, end: 2 }, flag: 103 })
ux a => Diagnostic(UnknownFlag { span: Span { start: 1, end: 2 }, flag: 120 })
u (?<a>x)(?<\u0061>y) => Diagnostic(DuplicatedCapturingGroupNames { first: Span { start: 3, end: 4 }, second: Span { start: 10, end: 16 } })
u (?:(?<a>x)|b)(?:c|(?<a>y)) => Diagnostic(DuplicatedCapturingGroupNames { first: Span { start: 6, end: 7 }, second: Span { start: 21, end: 22 } })
u (?<a>x|(?<a>y)) => Diagnostic(DuplicatedCapturingGroupNames { first: Span { start: 3, end: 4 }, second: Span { start: 10, end: 11 } })
u (?=a => Diagnostic(UnterminatedPattern { span: Span { start: 0, end: 4 }, what: LookAround })
u (\a) => Diagnostic(UnterminatedPattern { span: Span { start: 0, end: 2 }, what: CapturingGroup })
u (?:a => Diagnostic(UnterminatedPattern { span: Span { start: 0, end: 4 }, what: IgnoreGroup })
u (?<>a) => Diagnostic(UnterminatedPattern { span: Span { start: 2, end: 3 }, what: GroupName })
u (?<😀>x) => Diagnostic(UnterminatedPattern { span: Span { start: 2, end: 3 }, what: GroupName })
u \p{L=} => Diagnostic(UnterminatedPattern { span: Span { start: 0, end: 4 }, what: PropertyEscape })
u \p => Diagnostic(UnterminatedPattern { span: Span { start: 0, end: 2 }, what: PropertyEscape })
u [a => Diagnostic(UnterminatedPattern { span: Span { start: 0, end: 2 }, what: CharacterClass })
v [a => Diagnostic(UnterminatedPattern { span: Span { start: 0, end: 2 }, what: CharacterClass })
v [a-z&&b] => Diagnostic(UnterminatedPattern { span: Span { start: 0, end: 4 }, what: CharacterClass })
v [[a => Diagnostic(UnterminatedPattern { span: Span { start: 1, end: 3 }, what: NestedClass })
v [\q{a => Diagnostic(UnterminatedPattern { span: Span { start: 1, end: 5 }, what: ClassStringDisjunction })
u (?i:a)\1 => Diagnostic(InvalidIndexedReference { span: Span { start: 6, end: 8 }, max: 0 })
u (a)\12 => Diagnostic(InvalidIndexedReference { span: Span { start: 3, end: 6 }, max: 1 })
u \k<a>(?<b>) => Diagnostic(InvalidNamedReference { span: Span { start: 0, end: 5 }, names: List { items: [Text { inner: "b" }] } })
u (?:(?<b>)|(?<a>)|(?<b>))(?<c>)\k<d> => Diagnostic(InvalidNamedReference { span: Span { start: 30, end: 35 }, names: List { items: [Text { inner: "b" }, Text { inner: "a" }, Text { inner: "c" }] } })
u \k<a> => Diagnostic(InvalidNamedReference { span: Span { start: 0, end: 5 }, names: List { items: [] } })
v \P{RGI_Emoji} => Diagnostic(InvalidUnicodePropertyNameNegativeStrings { span: Span { start: 0, end: 13 }, name: Text { inner: "RGI_Emoji" } })
u \p{RGI_Emoji} => Diagnostic(InvalidUnicodePropertyOfStrings { span: Span { start: 3, end: 12 }, name: Text { inner: "RGI_Emoji" } })
u [\P{Basic_Emoji}] => Diagnostic(InvalidUnicodePropertyOfStrings { span: Span { start: 4, end: 15 }, name: Text { inner: "Basic_Emoji" } })
u \p{sc=Foo} => Diagnostic(InvalidUnicodeProperty { span: Span { start: 6, end: 9 }, what: Name })
u \p{sc=} => Diagnostic(InvalidUnicodeProperty { span: Span { start: 3, end: 5 }, what: NameOrValue })
u [z-a] => Diagnostic(CharacterClassRangeOutOfOrder { span: Span { start: 2, end: 4 }, what: ClassAtom })
v [z-a] => Diagnostic(CharacterClassRangeOutOfOrder { span: Span { start: 1, end: 4 }, what: ClassSet })
v [a&&] => Diagnostic(ClassSetExpressionInvalidCharacter { span: Span { start: 4, end: 4 }, what: Intersection })
v [a--] => Diagnostic(ClassSetExpressionInvalidCharacter { span: Span { start: 4, end: 4 }, what: Subtraction })
v [a--bc] => Diagnostic(ClassSetExpressionInvalidCharacter { span: Span { start: 5, end: 5 }, what: Subtraction })
u a{99999999999999999999 => Diagnostic(TooLargeNumberDigits { span: Span { start: 2, end: 21 }, what: Decimal })
u \u{100000000} => Diagnostic(TooLargeNumberDigits { span: Span { start: 3, end: 11 }, what: Hex })"#;

const SETS: &str = r#"v [a--[bc]] => Sets itself 0..9 1 | 0..9 0..9 other;
v [\q{a|bc}] => Sets itself 0..10 1 | 0..10 0..10 other;
v [a&&b] => Sets itself 0..6 1 | 0..6 0..6 other;
v [\q{}] => Sets itself 0..6 1 | 0..6 0..6 other;
v [a!b] => Sets [a\!b] 0..5 1 | 0..5 0..5 other;
v [a&&&b] => Diagnostic(ClassIntersectionUnexpectedAmpersand { span: Span { start: 4, end: 5 } })
v [^\q{ab}] => Diagnostic(InvalidCharacterClass { span: Span { start: 0, end: 9 } })
v [[^\q{ab}]] => Diagnostic(CharacterClassContentsInvalidOperands { span: Span { start: 1, end: 10 } })
v [&&a] => Diagnostic(EmptyClassSetExpression { span: Span { start: 1, end: 1 } })"#;

#[test]
fn refusals_say_what_is_wrong(rt: HostRuntime) -> Result<(), Fail> {
    agree(rt.alloc(), &LITERAL, CAUSES)?;
    agree(rt.alloc(), &LITERAL, SETS)
}
