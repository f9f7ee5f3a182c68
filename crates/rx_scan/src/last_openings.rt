ghost use Rattle.std.specs.Prelude.{◌≡◌, ℕ, List, OnOk, None, Some, if◌then◌else◌};
ghost use Rattle.std.specs.BTreeMap.{get_by_text};
ghost use Rattle.std.specs.Str.{bytes_eq};

use rx_base::OutOfMemory;
use std::alloc::Global;
use std::collections::BTreeMap;

/// The last opening of each name, by its index among the marks.
#[derive(Drop)]
pub struct LastOpenings {
    pub marks: BTreeMap<String, usize>,
}

impl LastOpenings {
    /// No openings. Takes no memory.
    pub fn new(alloc: Global) -> LastOpenings
        ensures { (name : List ℕ) → get_by_text result.marks name ≡ None }
    {
        LastOpenings {
            marks: BTreeMap::new(alloc),
        }
    }

    pub fn get(&self, name: &str) -> Option<usize>
        ensures { result ≡ get_by_text self.now.marks name.now }
    {
        self.marks.get(name).copied()
    }

    /// An opening of this name stands at this index.
    pub fn set(&mut self, alloc: Global, name: &str, mark: usize) -> Result<(), OutOfMemory>
        ensures { OnOk result ((other : List ℕ) → get_by_text self.new.marks other ≡ if bytes_eq name.now other then Some mark else get_by_text self.old.marks other) }
    {
        let key = String::from_str(alloc, name)?;
        self.marks.insert(key, mark)?;
        Ok(())
    }
}
