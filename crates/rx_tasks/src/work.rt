ghost use Rattle.std.specs.Prelude.{OnOk};

use crate::next::Next;
use rx_base::{List, OutOfMemory};
use std::alloc::Global;

/// A task of work on a state, as a text that is written or a visitor.
///
/// `does` says that a task may lead from one state to another, and `weight` is more than the weights of the tasks that it puts back.
// Why: docs/DECISIONS.md, 104.
pub trait Work<S>: Copy + Drop {
    ghost use Rattle.std.specs.Prelude.{ℕ, ◌<◌, OnOk, IfOk, sum_by};
    ghost use Rattle.rx_tasks.specs.Tasks.{Leads, tasks_of};

    /// What holds of each state in which a task is done.
    ghost ready: { S → Type 0 } = { λ _. Unit {0} };

    ghost does: { Self → S → S → Type 0 };

    ghost weight: { Self → ℕ };

    /// Does a front of the task, and answers the tasks that are left of it. What nests in another way takes its memory from `alloc`.
    fn work(self, alloc: Global, state: &mut S) -> Result<Next<Self>, OutOfMemory>
        requires { ready state.old }
        ensures ready { OnOk result (ready state.new) }
        ensures leads { IfOk result (λ next. Leads does self state.old state.new (tasks_of next)) }
        ensures lighter { IfOk result (λ next. sum_by weight (tasks_of next) < weight self) };
}

/// Does a task, and all that is put back for it, by a loop. Fails only where a task fails, or where there is no memory for those
/// that wait.
pub fn work_through<S, T: Work<S>>(
    alloc: Global,
    state: &mut S,
    first: T,
) -> Result<(), OutOfMemory>
    requires { T.ready state.old }
    ensures { OnOk result (T.does first state.old state.new) }
{
    let mut waiting = List::new(alloc);
    let mut left = Some(first);
    while let Some(task) = left {
        left = task.work(alloc, state)?.put_back(&mut waiting)?;
    }
    Ok(())
}
