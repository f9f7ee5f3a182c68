ghost use Rattle.std.specs.Prelude.{ℕ, List, ◌++◌, ◌+◌, ◌≤◌, IfOk, sum_by};
ghost use Rattle.std.specs.Fmt.{IsPlainFormatter};
ghost use Rattle.rx_ast.specs.Shown.{pair_or};
ghost use Rattle.rx_display.specs.Writes.{writes};
ghost use Rattle.rx_tasks.specs.Tasks.{tasks_of};
ghost use Rattle.rx_tasks.specs.Texts.{Goes, texts_of};

use rx_tasks::Next;
use std::fmt;

/// Writes the pair, or else puts back what stands alone. The rest is put back after that.
pub fn write_pair_or<W: fmt::Write, T: Copy + Drop>(
    f: &mut fmt::Formatter<W>,
    pair: Option<char>,
    alone: T,
    rest: T,
) -> Result<Next<T>, fmt::Error>
    requires { IsPlainFormatter f.old }
    ensures text { (text : T → List ℕ) → IfOk result (λ next. Goes (writes W.write_str_gives) f.old f.new (pair_or pair (text alone) ++ text rest) (texts_of text next)) }
    ensures lighter { (weight : T → ℕ) → IfOk result (λ next. sum_by weight (tasks_of next) ≤ weight alone + weight rest) }
{
    match pair {
        Some(c) => {
            f.write_char(c)?;
            Ok(Next::One(rest))
        }
        None => Ok(Next::Two(alone, rest)),
    }
}
