ghost use Rattle.std.specs.Prelude.{◌≡◌};
ghost use Rattle.std.specs.Option.{option_map};
ghost use Rattle.rx_base.specs.Texts.{are_same};
ghost use Rattle.rx_ast.specs.Kinds.{pattern as pattern_kind, order};
ghost use Rattle.rx_ast.specs.MirrorKinds.{mirror_kind};
ghost use Rattle.rx_ast.specs.Tree.{mirror};
ghost use Rattle.rx_visit.specs.Names.{is_name_twice, is_refused_alone};
ghost use Rattle.rx_visit.specs.Patterns.{is_named, is_twice, is_refused, is_refused_pattern, looks_behind};

use crate::names::name_of;
use crate::term::walk_pattern;
use crate::visit::Visit;
use rx_ast::{LookAroundAssertionKind, Pattern, RegExpAstKind};
use rx_base::{ContentEq, Text};

/// What is not supported in a pattern.
#[derive(Debug, Default, Drop)]
pub struct RegexUnsupportedPatterns {
    /// `(?<name>..)`
    pub named_capture_groups: bool,

    /// Two groups of equal names.
    pub duplicate_named_capture_groups: bool,

    /// `\p{..}` and `\P{..}`
    pub unicode_property_escapes: bool,

    /// `(?<=..)` and `(?<!..)`
    pub look_behind_assertions: bool,

    /// `(?i:..)` and the like
    pub pattern_modifiers: bool,
}

/// Whether some node of a pattern, at any depth, is not supported. It takes no memory: for a name that may stand twice it walks
/// over the pattern again.
pub fn has_unsupported_regular_expression_pattern(
    pattern: &Pattern,
    unsupported: &RegexUnsupportedPatterns,
) -> bool
    ensures { result ≡ is_refused_pattern unsupported.now (order (pattern_kind (mirror pattern.now))) }
{
    let mut finder = Finder {
        pattern,
        unsupported,
        found: false,
    };
    walk_pattern(&mut finder, pattern);
    finder.found
}

/// Looks for a node that is not supported, until one is found.
#[derive(Drop)]
struct Finder<'a> {
    pattern: &'a Pattern,
    unsupported: &'a RegexUnsupportedPatterns,
    found: bool,
}

impl Visit for Finder<'_> {
    ghost use Rattle.rx_visit.specs.Finders.{Finds};

    ghost entered = { λ v kind answer w. Finds v kind answer w };

    ghost left = { λ v kind w. w ≡ v };

    fn enter_node(&mut self, kind: RegExpAstKind<'_>) -> bool {
        self.found = self.found || is_refused(kind, self.unsupported, self.pattern);
        !self.found
    }

    fn leave_node(&mut self, _kind: RegExpAstKind<'_>) {}
}

/// Whether a node of a pattern is not supported.
fn is_refused(
    kind: RegExpAstKind<'_>,
    unsupported: &RegexUnsupportedPatterns,
    pattern: &Pattern,
) -> bool
    ensures { result ≡ is_refused unsupported.now (order (pattern_kind (mirror pattern.now))) (mirror_kind kind.entry) }
{
    is_refused_alone(kind, unsupported)
        || (unsupported.duplicate_named_capture_groups && is_name_twice(name_of(kind), pattern))
}

/// Whether a node is not supported whatever stands beside it.
pub fn is_refused_alone(kind: RegExpAstKind<'_>, unsupported: &RegexUnsupportedPatterns) -> bool
    ensures { result ≡ is_refused_alone unsupported.now (mirror_kind kind.entry) }
{
    match kind {
        RegExpAstKind::CapturingGroup(it) => {
            unsupported.named_capture_groups && it.name.is_some()
        }
        RegExpAstKind::UnicodePropertyEscape(_) => unsupported.unicode_property_escapes,
        RegExpAstKind::LookAroundAssertion(it) => {
            unsupported.look_behind_assertions && looks_behind(it.kind)
        }
        RegExpAstKind::IgnoreGroup(it) => {
            unsupported.pattern_modifiers && it.modifiers.is_some()
        }
        _ => false,
    }
}

/// Whether there is a name and two groups of a pattern have it.
fn is_name_twice(name: Option<&Text>, pattern: &Pattern) -> bool
    ensures { result ≡ is_name_twice (order (pattern_kind (mirror pattern.now))) (option_map (λ name. name.now) name.entry) }
{
    match name {
        Some(name) => is_twice(name, pattern),
        None => false,
    }
}

fn looks_behind(kind: LookAroundAssertionKind) -> bool
    ensures { result ≡ looks_behind kind }
{
    match kind {
        LookAroundAssertionKind::Lookbehind => true,
        LookAroundAssertionKind::NegativeLookbehind => true,
        LookAroundAssertionKind::Lookahead => false,
        LookAroundAssertionKind::NegativeLookahead => false,
    }
}

/// Whether two groups of a pattern have this name.
fn is_twice(name: &Text, pattern: &Pattern) -> bool
    ensures { result ≡ is_twice (order (pattern_kind (mirror pattern.now))) name.now }
{
    let mut counter = NameCounter { name, count: 0 };
    walk_pattern(&mut counter, pattern);
    counter.count > 1
}

/// Counts the groups of a name, until two are found.
#[derive(Drop)]
struct NameCounter<'a> {
    name: &'a Text,
    count: usize,
}

impl Visit for NameCounter<'_> {
    ghost use Rattle.rx_visit.specs.Finders.{Counts};

    ghost entered = { λ v kind answer w. Counts v kind answer w };

    ghost left = { λ v kind w. w ≡ v };

    fn enter_node(&mut self, kind: RegExpAstKind<'_>) -> bool {
        if self.count < 2 && is_named(kind, self.name) {
            self.count += 1;
        }
        self.count < 2
    }

    fn leave_node(&mut self, _kind: RegExpAstKind<'_>) {}
}

/// Whether a node is a group of this name.
fn is_named(kind: RegExpAstKind<'_>, name: &Text) -> bool
    ensures { result ≡ is_named name.now (mirror_kind kind.entry) }
{
    match kind {
        RegExpAstKind::CapturingGroup(it) => match &it.name {
            None => false,
            Some(other) => is_same(other, name),
        },
        _ => false,
    }
}

fn is_same(a: &Text, b: &Text) -> bool
    ensures { result ≡ are_same a.now b.now }
{
    a.content_eq(b)
}
