use rx_rows::{Call, agree, short};
use rx_scan::State;
use rx_units::Reader;
use std::alloc::Global;
use std::test::Fail;

/// What the first pass makes of a text, with `v`, with `u`, or with neither: how it ended, how many groups there are, whether `\k` is a reference, the names
/// that the state has, and whether it holds them.
struct Passing {
    unicode_mode: bool,
    unicode_sets_mode: bool,
    duplicate_names: bool,
}

const WITH_V: Passing = Passing {
    unicode_mode: true,
    unicode_sets_mode: true,
    duplicate_names: true,
};

const WITH_U: Passing = Passing {
    unicode_mode: true,
    unicode_sets_mode: false,
    duplicate_names: true,
};

const WITHOUT_U: Passing = Passing {
    unicode_mode: false,
    unicode_sets_mode: false,
    duplicate_names: true,
};

const ALL_DISTINCT: Passing = Passing {
    unicode_mode: true,
    unicode_sets_mode: false,
    duplicate_names: false,
};

impl Call for Passing {
    fn answer(&self, alloc: Global, asked: &str) -> Result<String, Fail> {
        let mut reader = Reader::initialize(alloc, short(asked)?, self.unicode_mode, false)?;
        let mut state = State::new(
            alloc,
            self.unicode_mode,
            self.unicode_sets_mode,
            self.duplicate_names,
        );
        let outcome = state.initialize_with_parsing(&mut reader);
        let shown = (
            outcome,
            state.num_of_capturing_groups,
            state.named_capture_groups,
            state.capturing_group_names.as_slice(),
            holds_its_names(&state),
        );
        Ok(format!(in alloc; "{shown:?}")?)
    }
}

/// Whether each name that is listed is held, and what is no name is not.
fn holds_its_names(state: &State) -> bool {
    let names = &state.capturing_group_names;
    for name in names.as_slice() {
        if !names.contains(name.as_str()) {
            return false;
        }
    }
    !names.contains("1") && !names.contains("")
}

#[test]
fn groups_and_names(rt: HostRuntime) -> Result<(), Fail> {
    let rows = " => (Ok(()), 0, false, [], true)
(a)(?:b)(?=c)(?!d)(?<=e)(?<!f)(?<n>g)(?i-s:h) => (Ok(()), 2, true, [Text { inner: \"n\" }], true)
\\((?<a>)[(](b)[\\](](?<x => (Ok(()), 3, true, [Text { inner: \"a\" }], true)
(?<1>)(?<>)(?<a => (Ok(()), 3, false, [], true)
((( => (Ok(()), 3, false, [], true)
(?( => (Ok(()), 1, false, [], true)
[( => (Ok(()), 0, false, [], true)
\\ => (Ok(()), 0, false, [], true)
(a) => (Ok(()), 1, false, [], true)
(?<1>) => (Ok(()), 1, false, [], true)
(?<a>) => (Ok(()), 1, true, [Text { inner: \"a\" }], true)";
    agree(rt.alloc(), &WITHOUT_U, rows)?;
    let rows = "(a) => (Ok(()), 1, true, [], true)
(?<b>)(?<1>) => (Ok(()), 2, true, [Text { inner: \"b\" }], true)
(?<b>)(?<1>)(?:(?<a>)|(?<b\\u0061>)|(?<a>)|(?<\\u{61}>)) => (Ok(()), 6, true, [Text { inner: \"b\" }, Text { inner: \"a\" }, Text { inner: \"ba\" }], true)";
    agree(rt.alloc(), &WITH_U, rows)
}

#[test]
fn classes_in_one_another(rt: HostRuntime) -> Result<(), Fail> {
    let rows = "[(] => (Ok(()), 0, true, [], true)
[[(]]( => (Ok(()), 1, true, [], true)
[[(]( => (Ok(()), 0, true, [], true)
[\\[(](a) => (Ok(()), 1, true, [], true)
[[( => (Ok(()), 0, true, [], true)
[[\\ => (Ok(()), 0, true, [], true)
[[\\]( => (Ok(()), 0, true, [], true)
[]]( => (Ok(()), 1, true, [], true)
[^[^(]]( => (Ok(()), 1, true, [], true)
[[]\\](]() => (Ok(()), 1, true, [], true)
[a[b]c](?<n>x) => (Ok(()), 1, true, [Text { inner: \"n\" }], true)
[a[b](?<n>x) => (Ok(()), 0, true, [], true)
[(&&[(]--[)]](?<b>.) => (Ok(()), 1, true, [Text { inner: \"b\" }], true)
[[[]]](?<a>)|(?<a>) => (Ok(()), 2, true, [Text { inner: \"a\" }], true)
(?<a>)[[]|(?<a>) => (Ok(()), 1, true, [Text { inner: \"a\" }], true)
(?<a>)[[|]|](?<a>) => (Err(Duplicated { first: (3, 4), second: (15, 16) }), 0, false, [], true)
(?<a>)[[|]]|(?<a>) => (Ok(()), 2, true, [Text { inner: \"a\" }], true)";
    agree(rt.alloc(), &WITH_V, rows)?;
    let rows = "[[(]]( => (Ok(()), 1, true, [], true)
[[(]( => (Ok(()), 1, true, [], true)
[a[b](?<n>x) => (Ok(()), 1, true, [Text { inner: \"n\" }], true)
(?<a>)[[]|(?<a>) => (Ok(()), 2, true, [Text { inner: \"a\" }], true)
(?<a>)[[|]|](?<a>) => (Ok(()), 2, true, [Text { inner: \"a\" }], true)";
    agree(rt.alloc(), &WITH_U, rows)
}

#[test]
fn equal_names(rt: HostRuntime) -> Result<(), Fail> {
    let parted = "(?<a>x)|(?<a>y) => (Ok(()), 2, true, [Text { inner: \"a\" }], true)
(?:(?:(?<a>)|b)|(?<a>y)) => (Ok(()), 2, true, [Text { inner: \"a\" }], true)
(?<n>a)|)(?<n>b) => (Ok(()), 2, true, [Text { inner: \"n\" }], true)
(?<a>)|[(](?<a>) => (Ok(()), 2, true, [Text { inner: \"a\" }], true)";
    agree(rt.alloc(), &WITH_U, parted)?;
    let clashing =
        "(?<a>x)(?<a>y) => (Err(Duplicated { first: (3, 4), second: (10, 11) }), 0, false, [], true)
(?:(?<a>x)|b)(?<a>y) => (Err(Duplicated { first: (6, 7), second: (16, 17) }), 0, false, [], true)
(?:(?<a>x)|(?<a>x))(?<a>y) => (Err(Duplicated { first: (6, 7), second: (22, 23) }), 0, false, [], true)
(?<a>b|(?<a>y)) => (Err(Duplicated { first: (3, 4), second: (10, 11) }), 0, false, [], true)
(?:x|(?<a>))(?:y|(?<a>)) => (Err(Duplicated { first: (8, 9), second: (20, 21) }), 0, false, [], true)
(?<a>)[|](?<a>) => (Err(Duplicated { first: (3, 4), second: (12, 13) }), 0, false, [], true)
(?<a>)\\|(?<a>) => (Err(Duplicated { first: (3, 4), second: (11, 12) }), 0, false, [], true)
(?<b>)(?<a>)(?<a>)(?<b>) => (Err(Duplicated { first: (9, 10), second: (15, 16) }), 0, false, [], true)
(?<a>)(?<\\u0061>) => (Err(Duplicated { first: (3, 4), second: (9, 15) }), 0, false, [], true)
(?<é>x)(?<é>) => (Err(Duplicated { first: (3, 5), second: (11, 13) }), 0, false, [], true)";
    agree(rt.alloc(), &WITHOUT_U, clashing)?;
    let all_distinct =
        "(?<a>)|(?<b>) => (Ok(()), 2, true, [Text { inner: \"a\" }, Text { inner: \"b\" }], true)
(?<a>)|(?<a>) => (Err(Duplicated { first: (3, 4), second: (10, 11) }), 0, false, [], true)
(?<a>(?<a>)) => (Err(Duplicated { first: (3, 4), second: (8, 9) }), 0, false, [], true)
(?<a>)|(?<b>)|(?<b>)|(?<a>) => (Err(Duplicated { first: (10, 11), second: (17, 18) }), 0, false, [], true)
(?:(?<a>)|b)(?:c|(?<a>)) => (Err(Duplicated { first: (6, 7), second: (20, 21) }), 0, false, [], true)";
    agree(rt.alloc(), &ALL_DISTINCT, all_distinct)
}
