ghost use Rattle.std.specs.Prelude.{◌≡◌, ◌∷◌, [], ◌≤◌, OnOk};
ghost use Rattle.rx_model.specs.FirstPass.GroupStates.{Nests, drop_top, set_top};
ghost use Rattle.rx_scan.specs.OpenGroups.{Splits, group_states_of, hides};

use rx_base::{List, OutOfMemory};
use std::alloc::Global;

/// A group that is open: the index after its opening among the marks, and that of the last bar that stands directly in it, or the
/// first again.
#[derive(Clone, Copy)]
pub struct OpenGroup {
    pub start: usize,
    pub bar: usize,
}

/// The groups that are open. The outermost is the whole text.
#[derive(Drop)]
pub struct OpenGroups {
    pub outer: List<OpenGroup>,
    pub innermost: OpenGroup,
}

impl OpenGroups {
    /// The whole text alone. Takes no memory.
    pub fn new(alloc: Global) -> OpenGroups
        ensures { group_states_of result ≡ (0, 0) ∷ [] }
    {
        OpenGroups {
            outer: List::new(alloc),
            innermost: OpenGroup { start: 0, bar: 0 },
        }
    }

    /// A group opens, whose first mark has this index.
    pub fn open(&mut self, start: usize) -> Result<(), OutOfMemory>
        ensures { OnOk result (group_states_of self.new ≡ (start, start) ∷ group_states_of self.old) }
    {
        self.outer.push(self.innermost)?;
        self.innermost = OpenGroup { start, bar: start };
        Ok(())
    }

    /// A bar stands at this index.
    pub fn bar(&mut self, index: usize)
        ensures { group_states_of self.new ≡ set_top index (group_states_of self.old) }
    {
        self.innermost.bar = index;
    }

    /// The innermost group closes, where there is one.
    pub fn close(&mut self)
        ensures { group_states_of self.new ≡ drop_top (group_states_of self.old) }
    {
        if let Some(group) = self.outer.pop() {
            self.innermost = group;
        }
    }

    /// Whether the mark with this index is in an alternative that has ended, of a group that is open.
    pub fn hides(&self, mark: usize) -> bool
        requires { Nests (group_states_of self.now) }
        ensures { result ≡ hides mark (group_states_of self.now) }
    {
        if self.innermost.start <= mark {
            return mark < self.innermost.bar;
        }
        let outer = self.outer.as_slice();
        let before = count_before(outer, mark);
        before > 0 && mark < outer[before - 1].bar
    }
}

/// How many of the groups begin at the mark or before it. They stand in the order in which they begin.
fn count_before(groups: &[OpenGroup], mark: usize) -> usize
    ensures { Splits mark groups.now result }
{
    let mut low = 0usize;
    let mut high = groups.len();
    while low < high {
        let middle = low + (high - low) / 2;
        if groups[middle].start <= mark {
            low = middle + 1;
        } else {
            high = middle;
        }
    }
    low
}
