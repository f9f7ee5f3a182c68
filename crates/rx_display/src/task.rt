ghost use Rattle.std.specs.Prelude.{◌≡◌, ◌++◌, ◌+◌, ◌*◌, ◌<◌, ◌≤◌, codes, sum_by};
ghost use Rattle.rx_ast.specs.Shown.{alternatives_shown};
ghost use Rattle.rx_ast.specs.Size.{all_alternatives_size, disjunction_size};
ghost use Rattle.rx_ast.specs.Tree.{mirror_disjunction};
ghost use Rattle.rx_display.specs.Tasks.{task_text, task_weight, tree_of};
ghost use Rattle.rx_tasks.specs.Tasks.{tasks_of};
ghost use Rattle.rx_tasks.specs.Texts.{texts_of};

use rx_ast::{Alternative, Disjunction, Quantifier, Term};
use rx_tasks::Next;

/// What is still to be written of a pattern.
#[derive(Clone, Copy)]
pub enum Task<'a> {
    /// A disjunction.
    Disjunction(&'a [Alternative]),

    /// The rest of a disjunction, each alternative after a bar.
    Alternatives(&'a [Alternative]),

    /// The rest of an alternative, and whether its first term was written together with the one before it.
    Terms { joined: bool, terms: &'a [Term] },

    /// A term.
    Term(&'a Term),

    /// A quantifier after its body.
    Suffix(&'a Quantifier),
    GroupEnd,
}

/// The first alternative, and the others after it.
pub fn split_disjunction<'a>(alternatives: &'a [Alternative]) -> Next<Task<'a>>
    ensures text { texts_of task_text result ≡ alternatives_shown (tree_of alternatives.now) }
    ensures lighter { sum_by task_weight (tasks_of result) < 1 + 4 * all_alternatives_size alternatives.now }
{
    let Some((first, more)) = alternatives.split_first() else {
        return Next::Nothing;
    };
    let terms = Task::Terms {
        joined: false,
        terms: first.body.as_slice(),
    };
    Next::Two(terms, Task::Alternatives(more))
}

/// What is after the opener of a group.
#[tactic(auto, using(rx_ast::proofs::Sizes::sizes))]
pub fn group_body<'a>(body: &'a Disjunction) -> Next<Task<'a>>
    ensures text { texts_of task_text result ≡ alternatives_shown (mirror_disjunction body.now).1 ++ codes ")" }
    ensures lighter { sum_by task_weight (tasks_of result) ≤ 2 + 4 * disjunction_size body.now }
{
    Next::Two(Task::Disjunction(body.body.as_slice()), Task::GroupEnd)
}
