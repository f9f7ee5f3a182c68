ghost use Rattle.std.specs.Prelude.{◌≡◌, ◌++◌, IfOk, reverse};
ghost use Rattle.rx_tasks.specs.Tasks.{tasks_left, tasks_of};

use rx_base::{List, OutOfMemory};

/// The tasks that a task puts back: they are done in this order, before all that wait.
#[derive(Clone, Copy)]
pub enum Next<T> {
    Nothing,
    One(T),
    Two(T, T),
    Three(T, T, T),
}

impl<T: Copy + Drop> Next<T> {
    /// The task that is done now, if one is left. The others wait, the last on top.
    #[inline(always)]
    pub fn put_back(self, waiting: &mut List<T>) -> Result<Option<T>, OutOfMemory>
        ensures { IfOk result (λ task. tasks_left task waiting.new ≡ tasks_of self ++ reverse waiting.old) }
    {
        match self {
            Next::Nothing => Ok(waiting.pop()),
            Next::One(first) => Ok(Some(first)),
            Next::Two(first, second) => {
                waiting.push(second)?;
                Ok(Some(first))
            }
            Next::Three(first, second, third) => {
                waiting.push(third)?;
                waiting.push(second)?;
                Ok(Some(first))
            }
        }
    }
}
