use crate::items::Items;
use crate::rules::{has_two_or_more, is_union};
use rx_ast::RegExpAstKind;
use rx_base::OutOfMemory;
use std::alloc::Global;
use std::collections::BTreeSet;

/// What the nodes before a node in its parent say of it.
#[derive(Clone, Copy)]
pub(crate) struct Mark {
    /// An earlier item makes it useless, or an earlier alternative is equal to it.
    pub is_repeated: bool,

    /// It is one of two or more alternatives.
    pub is_one_of_many: bool,
}

/// The nodes before a node in its parent, as far as a rule asks for them.
#[derive(Drop)]
pub(crate) enum Earlier<'a> {
    /// No rule asks.
    Unasked,

    /// Items of a class that is a union.
    Items(Items),

    /// Alternatives, of which there are two or more, by their numbers and before these how many they are.
    Alternatives(BTreeSet<(usize, &'a [u64])>),
}

impl<'a> Earlier<'a> {
    ghost use Rattle.std.specs.Prelude.{◌≡◌, [], ◌∷◌, ◌++◌, List as Sequence, Option as Perhaps, Some, IfOk};
    ghost use Rattle.rx_ast.specs.Kinds.{Kind, children};
    ghost use Rattle.rx_ast.specs.MirrorKinds.{mirror_kind};
    ghost use Rattle.rx_lint.specs.Earlier.{AreEarlier, IsMark};
    ghost use Rattle.rx_lint.specs.Numbers.{numbers};

    /// No nodes before the first child of a node.
    pub fn new(alloc: Global, parent: RegExpAstKind<'_>) -> Earlier<'a>
        ensures { AreEarlier result (Some (mirror_kind parent.entry)) [] (children (mirror_kind parent.entry)) }
    {
        if is_union(parent) {
            return Earlier::Items(Items::new(alloc));
        }
        if has_two_or_more(parent) {
            return Earlier::Alternatives(BTreeSet::new(alloc));
        }
        Earlier::Unasked
    }

    /// Adds a node, whose numbers with those of all nodes in it are the row, and says what the earlier ones say of it.
    pub fn add(&mut self, node: RegExpAstKind<'_>, row: &'a [u64]) -> Result<Mark, OutOfMemory>
        ensures { IfOk result (λ mark. (parent : Perhaps Kind) (before after : Sequence Kind) → AreEarlier self.old parent before (mirror_kind node.entry ∷ after) → row.now ≡ numbers (mirror_kind node.entry) → IsMark mark parent before (mirror_kind node.entry) × AreEarlier self.new parent (before ++ mirror_kind node.entry ∷ []) after) }
    {
        match self {
            Earlier::Unasked => Ok(Mark {
                is_repeated: false,
                is_one_of_many: false,
            }),
            Earlier::Items(items) => {
                let is_repeated = match node {
                    RegExpAstKind::CharacterClassContents(it) => items.add(it)?,
                    _ => false,
                };
                Ok(Mark {
                    is_repeated,
                    is_one_of_many: false,
                })
            }
            Earlier::Alternatives(rows) => {
                let is_new = rows.insert((row.len(), row))?;
                Ok(Mark {
                    is_repeated: !is_new,
                    is_one_of_many: true,
                })
            }
        }
    }
}
