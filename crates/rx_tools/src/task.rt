ghost use Rattle.std.specs.Prelude.{◌≡◌, ◌++◌, ◌+◌, ◌*◌, ◌-◌, ◌≤◌, length};
ghost use Rattle.rx_ast.specs.Size.{all_alternatives_size, term_size};
ghost use Rattle.rx_ast.specs.Tree.{mirror_term};
ghost use Rattle.rx_display.specs.Tasks.{tree_of};
ghost use Rattle.rx_model.specs.Spelling.Spelling.{alternatives_text, node_text};
ghost use Rattle.rx_tools.specs.Tasks.{body_of, body_text, body_weight, closer_text, suffix_text, task_text, task_weight};

use rx_ast::{Alternative, Quantifier, Term};
use rx_model::Mode;
use std::slice;

/// What is left of a disjunction: terms, and alternatives after them, each after a bar.
#[derive(Clone, Copy)]
pub struct Body<'a> {
    pub mode: Mode,

    /// Whether an unquantified indexed reference stands right before the terms.
    pub after_reference: bool,

    pub terms: &'a [Term],
    pub more: &'a [Alternative],
}

/// What is still to be written of a pattern: what ends a term, and the body after the term.
// In this order the fields take more than 64 bytes. The compiler copies a smaller struct, and a struct within a struct, as a block
// with its padding, and a larger one field by field.
#[derive(Clone, Copy)]
pub struct Task<'a> {
    /// Whether the term is a group that is to be closed.
    pub closes: bool,

    /// The quantifier of the term.
    pub suffix: Option<&'a Quantifier>,

    pub mode: Mode,
    pub terms: &'a [Term],
    pub after_reference: bool,
    pub more: &'a [Alternative],
}

impl<'a> Task<'a> {
    /// The task to write what ends a term, and the body after it.
    #[inline(always)]
    pub fn new(closes: bool, suffix: Option<&'a Quantifier>, body: Body<'a>) -> Task<'a>
        ensures text { task_text result ≡ (closer_text closes ++ suffix_text suffix.entry) ++ body_text body.entry }
        ensures weight { task_weight result ≡ body_weight body.entry }
    {
        Task {
            closes,
            suffix,
            mode: body.mode,
            terms: body.terms,
            after_reference: body.after_reference,
            more: body.more,
        }
    }

    /// What is left of a disjunction after the term.
    #[inline(always)]
    pub fn body(self) -> Body<'a>
        ensures { result ≡ body_of self.entry }
    {
        Body {
            mode: self.mode,
            after_reference: self.after_reference,
            terms: self.terms,
            more: self.more,
        }
    }
}

/// A whole disjunction.
#[inline(always)]
pub fn whole_body<'a>(mode: Mode, alternatives: &'a [Alternative]) -> Body<'a>
    ensures text { body_text result ≡ alternatives_text mode (tree_of alternatives.now) }
    ensures weight { body_weight result ≤ 1 + 2 * all_alternatives_size alternatives.now }
    ensures shorter { length result.more.now ≤ length alternatives.now - 1 }
{
    let after_reference = false;
    let Some((first, more)) = alternatives.split_first() else {
        return Body {
            mode,
            after_reference,
            terms: &[],
            more: &[],
        };
    };
    Body {
        mode,
        after_reference,
        terms: first.body.as_slice(),
        more,
    }
}

/// A term alone.
#[inline(always)]
pub fn lone_body<'a>(mode: Mode, after_reference: bool, term: &'a Term) -> Body<'a>
    ensures text { body_text result ≡ node_text mode after_reference (mirror_term term.now) }
    ensures weight { body_weight result ≡ 1 + 2 * term_size term.now }
{
    Body {
        mode,
        after_reference,
        terms: slice::from_ref(term),
        more: &[],
    }
}
