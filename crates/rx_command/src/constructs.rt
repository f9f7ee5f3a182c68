ghost use Rattle.std.specs.Prelude.{◌≡◌, ◌↔◌, ◌⊎◌, IsTrue, MatchOption, false};
ghost use Rattle.rx_rewrite.specs.declared.rewrites.Rewrites.{Rewrites as Asked};
ghost use Rattle.rx_command.specs.declared.constructs.Construct.{Construct as Named};
ghost use Rattle.rx_command.specs.Constructs.{IsConstructList, construct_name, has_construct as has_field};

use rx_rewrite::Rewrites;

/// A construct that can go from patterns.
#[derive(Clone, Copy)]
enum Construct {
    NamedCaptureGroups,
    DotAll,
    Multiline,
    PatternModifiers,
}

impl Construct {
    /// The construct of this name, or none.
    fn from_name(name: &str) -> Option<Construct>
        ensures { MatchOption result
            ((construct : Named) → ¬ (name.now ≡ construct_name construct))
            (λ construct. name.now ≡ construct_name construct) }
    {
        match name {
            "named_capture_groups" => Some(Construct::NamedCaptureGroups),
            "dot_all" => Some(Construct::DotAll),
            "multiline" => Some(Construct::Multiline),
            "pattern_modifiers" => Some(Construct::PatternModifiers),
            _ => None,
        }
    }
}

/// The constructs of a list, or none where the word is none of the lists.
pub fn named_rewrites(word: &str) -> Option<Rewrites>
    ensures { MatchOption result
        ((what : Asked) → ¬ IsConstructList word.now what)
        (λ what. IsConstructList word.now what) }
{
    let mut what = no_rewrites();
    for name in word.split(',') {
        let construct = Construct::from_name(name)?;
        if has(what, construct) {
            return None;
        }
        insert(&mut what, construct);
    }
    Some(what)
}

fn no_rewrites() -> Rewrites
    ensures { (construct : Named) → has_field result construct ≡ false }
{
    Rewrites {
        named_capture_groups: false,
        dot_all: false,
        multiline: false,
        pattern_modifiers: false,
    }
}

fn has(what: Rewrites, construct: Construct) -> bool
    ensures { result ≡ has_field what construct }
{
    match construct {
        Construct::NamedCaptureGroups => what.named_capture_groups,
        Construct::DotAll => what.dot_all,
        Construct::Multiline => what.multiline,
        Construct::PatternModifiers => what.pattern_modifiers,
    }
}

/// Sets the field of a construct, and no other.
fn insert(what: &mut Rewrites, construct: Construct)
    ensures { (other : Named) → IsTrue (has_field what.new other) ↔ ((other ≡ construct) ⊎ IsTrue (has_field what.old other)) }
{
    match construct {
        Construct::NamedCaptureGroups => what.named_capture_groups = true,
        Construct::DotAll => what.dot_all = true,
        Construct::Multiline => what.multiline = true,
        Construct::PatternModifiers => what.pattern_modifiers = true,
    }
}
