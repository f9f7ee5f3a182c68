ghost use Rattle.std.specs.Prelude.{◌≡◌, ◌↔◌, [], ◌∷◌, ◌++◌, false, IsTrue, OnErr, OnOk};
ghost use Rattle.std.specs.Str.{chars};
ghost use Rattle.rx_base.specs.Texts.{is_among};

use rx_base::{List, OutOfMemory, Text};
use std::alloc::Global;
use std::collections::BTreeSet;
use std::marker::Model;

/// Names in order of first appearance, each once, which contracts see as the list of them.
#[derive(Debug, Drop)]
pub struct Names {
    list: List<Text>,
    known: BTreeSet<String>,
}

impl Model for Names {
    ghost use Rattle.std.specs.Prelude.{List as Sequence, ℕ};
    ghost use Rattle.rx_scan.specs.KnownNames.{KnowsAll};

    ghost Value = { Sequence (Sequence ℕ) };

    ghost view = { λ names. names.list };

    ghost invariant = { λ names. KnowsAll names.list names.known };
}

impl Names {
    /// No names. Takes no memory.
    pub fn new(alloc: Global) -> Names
        ensures { result ≡ [] }
    {
        Names {
            list: List::new(alloc),
            known: BTreeSet::new(alloc),
        }
    }

    /// Whether the name is one of them.
    pub fn contains(&self, name: &str) -> bool
        ensures { result ≡ is_among self.now (chars name.now) }
    {
        self.known.contains(name)
    }

    pub fn as_slice(&self) -> &[Text]
        ensures { result.now ≡ self.now }
    {
        self.list.as_slice()
    }

    pub fn is_empty(&self) -> bool
        ensures { IsTrue result ↔ (self.now ≡ []) }
    {
        self.list.is_empty()
    }

    /// Where the names take their memory.
    pub fn allocator(&self) -> Global {
        self.list.allocator()
    }

    /// Adds a name that is not among them at the end. After an error they are as they were.
    pub fn push(&mut self, name: Text) -> Result<(), OutOfMemory>
        requires { is_among self.old name ≡ false }
        ensures ok { OnOk result (self.new ≡ self.old ++ name ∷ []) }
        ensures err { OnErr result (self.new ≡ self.old) }
    {
        let key = String::from_str(self.list.allocator(), name.as_str())?;
        self.list.push(name)?;
        match self.known.insert(key) {
            Ok(_) => Ok(()),
            Err(_) => {
                self.list.pop();
                Err(OutOfMemory)
            }
        }
    }
}
