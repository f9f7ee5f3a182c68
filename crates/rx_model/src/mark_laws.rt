//! Laws of the marks of a text. The functions do nothing: each contract is a law.

ghost use Rattle.std.specs.Prelude.{◌≡◌, ◌↔◌, ◌++◌, ℕ, List, [], None, Option, Some};
ghost use Rattle.rx_model.specs.FirstPass.GroupStates.{Hides, group_states};
ghost use Rattle.rx_model.specs.FirstPass.MarkTexts.{AreNames, AreNamesOnce, AreOnce, ArePlaces, IsMarkRow, IsNameBetween, IsNamedOpening, SpellsMark};
ghost use Rattle.rx_model.specs.FirstPass.Marks.{IsCommon, IsParted, Mark, mark_at, mark_name, marks, name_places, names, places, seen};
ghost use Rattle.rx_model.specs.declared.mode.Mode.{Mode};
ghost use Rattle.rx_model.specs.Trees.Names.{once_after};

/// Some innermost opening is open at both of two marks, or only the whole text holds both.
pub fn has_common()
    ensures { (ms : List Mark) (a b : ℕ) → (o : Option ℕ) × IsCommon ms o a b }
{}

/// A bar parts a mark from a later one exactly where, at the later one, the mark is in an alternative that has ended, of a group
/// that has not.
pub fn parted_by_group_states()
    ensures sound { (ms : List Mark) (a b : ℕ) → Hides a (group_states ms b) → IsParted ms a b }
    ensures whole { (ms : List Mark) (a b : ℕ) → IsParted ms a b → Hides a (group_states ms b) }
{}

/// A text is one row of marks, which are those that the function of marks gives, at its places; it begins with at most one mark (CountLeftCapturingParensWithin of
/// ECMA-262, 22.2.1.2).
pub fn marks_are_the_row()
    ensures row { (mode : Mode) (us : List ℕ) (ms : List Mark) → IsMarkRow mode us ms ↔ (ms ≡ marks mode us) }
    ensures one { (mode : Mode) (m n : Mark) (w rest v back : List ℕ) → SpellsMark mode m w rest → SpellsMark mode n v back → w ++ rest ≡ v ++ back → (m ≡ n) × (rest ≡ back) }
    ensures places { (mode : Mode) (us ps : List ℕ) → ArePlaces mode 0 us ps ↔ (ps ≡ places mode us) }
{}

/// A mark has the name that its units spell between `<` and the next `>`, and none where they spell none; those units stand between the two places of the name
/// (GroupName, ECMA-262, 22.2.1).
pub fn mark_names_are_spelled()
    ensures named { (mode : Mode) (m : Mark) (w rest name : List ℕ) → SpellsMark mode m w rest → (mark_name mode m ≡ Some name) ↔ IsNamedOpening mode name w rest }
    ensures nameless { (mode : Mode) (m : Mark) (w rest : List ℕ) → SpellsMark mode m w rest →
        (mark_name mode m ≡ None) ↔ ((name : List ℕ) → IsNamedOpening mode name w rest → ⊥) }
    ensures between { (mode : Mode) (us : List ℕ) (k : ℕ) (name : List ℕ) → mark_name mode (mark_at (marks mode us) k) ≡ Some name →
        IsNameBetween mode us name (name_places mode us k).0 (name_places mode us k).1 }
{}

/// The names that the first pass lists are those of the named openings of the text, in order; those that it has seen are the same, each once, where it first appears.
pub fn names_are_listed()
    ensures all { (mode : Mode) (us : List ℕ) (ns : List (List ℕ)) → AreNames mode us ns ↔ (ns ≡ names mode (marks mode us)) }
    ensures once { (ns once : List (List ℕ)) → AreOnce ns once ↔ (once ≡ once_after [] ns) }
    ensures seen { (mode : Mode) (us : List ℕ) (once : List (List ℕ)) → AreNamesOnce mode us once ↔ (once ≡ seen mode (marks mode us)) }
{}
