ghost use Rattle.std.specs.Prelude.{◌≡◌, ◌++◌, [], ◌∷◌, List, MatchOption, false};
ghost use Rattle.std.specs.BTreeMap.{get};
ghost use Rattle.std.specs.List.{list_any};
ghost use Rattle.std.specs.Ordering.{nat_cmp};
ghost use Rattle.std.specs.Result.{OnOk};
ghost use Rattle.rx_lint.specs.Coverage.{Range, covers_both, AreLater, IsRising, IsStair, IsWithin};

use rx_base::OutOfMemory;
use std::alloc::Global;
use std::collections::BTreeMap;

/// Ranges, of which only those are kept that no other covers: the end of each, by its beginning.
#[derive(Drop)]
pub(crate) struct Ranges {
    ends: BTreeMap<u32, u32>,
}

impl Ranges {
    pub fn new(alloc: Global) -> Ranges
        ensures { IsStair (get nat_cmp result.ends) [] }
    {
        Ranges {
            ends: BTreeMap::new(alloc),
        }
    }

    /// Whether one of the ranges begins at `low` or before, and ends at `high` or after.
    pub fn covers(&self, low: u32, high: u32) -> bool
        ensures { (rs : List Range) → IsStair (get nat_cmp self.now.ends) rs → result ≡ list_any (covers_both low high) rs }
    {
        match self.ends.range(..=low).next_back() {
            None => false,
            Some((_, end)) => high <= *end,
        }
    }

    /// Adds a range that none of the others covers.
    pub fn add(&mut self, low: u32, high: u32) -> Result<(), OutOfMemory>
        ensures { OnOk result ((rs : List Range) → IsStair (get nat_cmp self.old.ends) rs → list_any (covers_both low high) rs ≡ false → IsStair (get nat_cmp self.new.ends) (rs ++ (low, high) ∷ [])) }
    {
        while let Some(key) = self.next_covered(low, high) {
            let _ = self.ends.remove(&key);
        }
        match self.ends.insert(low, high) {
            Ok(_) => Ok(()),
            Err(_) => Err(OutOfMemory),
        }
    }

    /// The first range from `low` on where it ends no later than `high`.
    fn next_covered(&self, low: u32, high: u32) -> Option<u32>
        ensures { MatchOption result (IsRising (get nat_cmp self.now.ends) → AreLater low high (get nat_cmp self.now.ends)) (λ key. IsWithin low high (get nat_cmp self.now.ends) key) }
    {
        match self.ends.range(low..).next() {
            None => None,
            Some((key, end)) => { if *end <= high { Some(*key) } else { None } }
        }
    }
}
