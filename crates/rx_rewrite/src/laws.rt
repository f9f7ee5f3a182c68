//! Laws of rewriting, for contracts alone. The functions do nothing: each contract is a law.

ghost use Rattle.std.specs.Prelude.{◌≡◌, ◌≢◌, ℕ, ◌*◌, ◌≤◌, true, false, Option, None, Ok, List, [], replicate};
ghost use Rattle.rx_ast.specs.Tree.{Whole, mirror};
ghost use Rattle.rx_ast.specs.declared.term.Pattern.{Pattern};
ghost use Rattle.rx_model.specs.Reading.Reading.{Reads};
ghost use Rattle.rx_model.specs.Spelling.ReadBack.{FitIn, IsReadBack};
ghost use Rattle.rx_model.specs.Trees.Early.{IsEarly};
ghost use Rattle.rx_model.specs.Trees.Names.{groups, names};
ghost use Rattle.rx_model.specs.Trees.Shapes.{IsWellMade};
ghost use Rattle.rx_model.specs.declared.mode.Mode.{Mode};
ghost use Rattle.rx_model.specs.declared.rules.Rules.{Rules};
ghost use Rattle.rx_rewrite.specs.declared.rewrites.Rewrites.{Rewrites};
ghost use Rattle.rx_rewrite.specs.Answers.{IsRewritten};
ghost use Rattle.rx_rewrite.specs.Promises.{Promises};
ghost use Rattle.rx_rewrite.specs.Asked.{CanBeRewritten, HasDotsInLine, HasEndsOfInput, HasNoLineModifiers, HasNoNames, nothing};
ghost use Rattle.rx_rewrite.specs.Rewriting.{flags_rewritten, rewritten};
ghost use Rattle.rx_trace.specs.Answers.{IsAnswer, begins_at, each_trace, pattern_trace};
ghost use Rattle.rx_trace.specs.Groups.{groups_in_each, names_in_each};
ghost use Rattle.rx_trace.specs.Supported.{unsupported_in};
ghost use Rattle.rx_trace.specs.Traces.{cost, first, states};
ghost use Rattle.rx_trace.specs.declared.answer.Found.{Found};
ghost use Rattle.rx_trace.specs.declared.answer.MatchFlags.{MatchFlags};
ghost use Rattle.rx_units.specs.declared.code_point.CodePoint.{CodePoint};

/// From each place of each input the rewritten pattern, under its flags, reaches the states that the pattern reaches under its own, in the same order: places and captures
/// (MatchState of ECMA-262, 22.2.2.1). Where names are rewritten, no two groups may have one name. Of a tree that the matcher refuses, or
/// under `i`, it says how the traces agree, which are then not what the standard's matcher does.
pub fn states_stay()
    ensures { (what : Rewrites) (flags : MatchFlags) (tree : Whole) (input : List ℕ) (start : ℕ) → CanBeRewritten what tree →
        states (pattern_trace (flags_rewritten what flags) (rewritten what flags tree) input start) ≡ states (pattern_trace flags tree input start) }
{}

/// So a search from a place, or from so many places after it too, ends in the same state or in none, and the match begins at the same place (RegExpBuiltinExec, 22.2.7.2).
pub fn searches_end_alike()
    ensures end { (what : Rewrites) (flags : MatchFlags) (tree : Whole) (input : List ℕ) (more start : ℕ) → CanBeRewritten what tree →
        first (each_trace (pattern_trace (flags_rewritten what flags) (rewritten what flags tree) input) more start) ≡ first (each_trace (pattern_trace flags tree input) more start) }
    ensures begin { (what : Rewrites) (flags : MatchFlags) (tree : Whole) (input : List ℕ) (more start : ℕ) → CanBeRewritten what tree →
        begins_at (pattern_trace (flags_rewritten what flags) (rewritten what flags tree) input) more start ≡ begins_at (pattern_trace flags tree input) more start }
{}

/// It takes as many Ticks to its end or more, and at most twice as many.
pub fn ticks_at_most_double()
    ensures least { (what : Rewrites) (flags : MatchFlags) (tree : Whole) (input : List ℕ) (more start : ℕ) → CanBeRewritten what tree →
        cost (each_trace (pattern_trace flags tree input) more start) ≤ cost (each_trace (pattern_trace (flags_rewritten what flags) (rewritten what flags tree) input) more start) }
    ensures most { (what : Rewrites) (flags : MatchFlags) (tree : Whole) (input : List ℕ) (more start : ℕ) → CanBeRewritten what tree →
        cost (each_trace (pattern_trace (flags_rewritten what flags) (rewritten what flags tree) input) more start) ≤ 2 * cost (each_trace (pattern_trace flags tree input) more start) }
{}

/// A matcher answers the same of both, a match or none, whatever the two budgets. What it may answer of the rewritten pattern it may answer of the pattern within the same
/// budget, and what it may answer of the pattern it may answer of the rewritten pattern within twice the budget.
pub fn answers_agree()
    ensures one { (what : Rewrites) (flags : MatchFlags) (tree : Whole) (input : List ℕ) (more start budget most : ℕ) (a b : Option Found) → CanBeRewritten what tree →
        IsAnswer flags tree input more start budget (Ok a) → IsAnswer (flags_rewritten what flags) (rewritten what flags tree) input more start most (Ok b) → a ≡ b }
    ensures before { (what : Rewrites) (flags : MatchFlags) (tree : Whole) (input : List ℕ) (more start budget : ℕ) (a : Option Found) → CanBeRewritten what tree →
        IsAnswer (flags_rewritten what flags) (rewritten what flags tree) input more start budget (Ok a) → IsAnswer flags tree input more start budget (Ok a) }
    ensures after { (what : Rewrites) (flags : MatchFlags) (tree : Whole) (input : List ℕ) (more start budget most : ℕ) (a : Option Found) → CanBeRewritten what tree →
        2 * budget ≤ most → IsAnswer flags tree input more start budget (Ok a) → IsAnswer (flags_rewritten what flags) (rewritten what flags tree) input more start most (Ok a) }
{}

/// The matcher refuses the rewritten pattern exactly where it refuses the pattern, and for the same.
pub fn refusals_stay()
    ensures { (what : Rewrites) (flags : MatchFlags) (tree : Whole) → unsupported_in (rewritten what flags tree) ≡ unsupported_in tree }
{}

/// The rewritten pattern has the groups of the pattern (CountLeftCapturingParensWithin of ECMA-262, 22.2.1.2). Where names are rewritten none has a name; else each has its own.
#[tactic(auto, using(crate::proofs::SameOutcomes::its_groups, crate::proofs::SameOutcomes::no_names, crate::proofs::SameOutcomes::all_names))]
pub fn groups_stay()
    ensures count { (what : Rewrites) (flags : MatchFlags) (tree : Whole) → groups_in_each (rewritten what flags tree).1.1 ≡ groups_in_each tree.1.1 }
    ensures nameless { (what : Rewrites) (flags : MatchFlags) (tree : Whole) → what.named_capture_groups ≡ true →
        names_in_each (rewritten what flags tree).1.1 ≡ replicate (groups_in_each tree.1.1) None }
    ensures named { (what : Rewrites) (flags : MatchFlags) (tree : Whole) → what.named_capture_groups ≡ false →
        names_in_each (rewritten what flags tree).1.1 ≡ names_in_each tree.1.1 }
{}

/// What is asked for is gone: names of groups and references by name; `.` that holds line terminators; `^` and `$` that hold at the ends of lines; the modifiers `m` and `s`
/// (UpdateModifiers of ECMA-262, 22.2.2.7.4). Each is gone whatever else is asked for.
pub fn what_is_asked_for_goes()
    ensures names { (what : Rewrites) (flags : MatchFlags) (tree : Whole) → what.named_capture_groups ≡ true → HasNoNames (flags_rewritten what flags) (rewritten what flags tree) }
    ensures dots { (what : Rewrites) (flags : MatchFlags) (tree : Whole) → what.dot_all ≡ true → HasDotsInLine (flags_rewritten what flags) (rewritten what flags tree) }
    ensures ends { (what : Rewrites) (flags : MatchFlags) (tree : Whole) → what.multiline ≡ true → HasEndsOfInput (flags_rewritten what flags) (rewritten what flags tree) }
    ensures modifiers { (what : Rewrites) (flags : MatchFlags) (tree : Whole) → what.pattern_modifiers ≡ true → HasNoLineModifiers (flags_rewritten what flags) (rewritten what flags tree) }
{}

/// Where nothing is asked for, the pattern and its flags stay as they are.
pub fn nothing_asked_changes_nothing()
    ensures tree { (flags : MatchFlags) (tree : Whole) → rewritten nothing flags tree ≡ tree }
    ensures flags { (flags : MatchFlags) → flags_rewritten nothing flags ≡ flags }
{}

/// The rewritten pattern, rewritten once more in the same way under its own flags, stays as it is.
pub fn once_more_changes_nothing()
    ensures { (what : Rewrites) (flags : MatchFlags) (tree : Whole) → rewritten what (flags_rewritten what flags) (rewritten what flags tree) ≡ rewritten what flags tree }
{}

/// A pattern whose tree is the rewritten one is free of early errors where the pattern is (ECMA-262, 22.2.1.1), and has the shape of a pattern in each mode in which the
/// pattern has it (Term, 22.2.1 and B.1.2).
pub fn no_early_error_comes()
    ensures early { (what : Rewrites) (flags : MatchFlags) (p q : Pattern) (rules : Rules) → mirror q ≡ rewritten what flags (mirror p) → IsEarly rules p → IsEarly rules q }
    ensures shape { (what : Rewrites) (flags : MatchFlags) (p q : Pattern) (mode : Mode) → mirror q ≡ rewritten what flags (mirror p) → IsWellMade mode p → IsWellMade mode q }
{}

/// It has as many groups, and where names are rewritten no name; else the same names.
pub fn names_stay_or_go()
    ensures count { (what : Rewrites) (flags : MatchFlags) (p q : Pattern) → mirror q ≡ rewritten what flags (mirror p) → groups q ≡ groups p }
    ensures nameless { (what : Rewrites) (flags : MatchFlags) (p q : Pattern) → mirror q ≡ rewritten what flags (mirror p) → what.named_capture_groups ≡ true → names q ≡ [] }
    ensures named { (what : Rewrites) (flags : MatchFlags) (p q : Pattern) → mirror q ≡ rewritten what flags (mirror p) → what.named_capture_groups ≡ false → names q ≡ names p }
{}

/// Its canonical spelling is read as it, but for spans and character kinds, in each mode and under all rules in which at least one unit spells the pattern (RegExpInitialize of
/// ECMA-262, 22.2.3.3). With neither `u` nor `v` each of these units is a UTF-16 code unit.
pub fn spelling_is_read_back()
    ensures { (what : Rewrites) (flags : MatchFlags) (p q : Pattern) (mode : Mode) (rules : Rules) (us : List CodePoint) → mirror q ≡ rewritten what flags (mirror p) →
        Reads mode rules p us → FitIn mode us → us ≢ [] → IsReadBack mode rules q }
{}

/// Where a rewriting gives a pattern, all of this holds of it: where names were to go, no two groups had one.
pub fn promises_are_kept()
    ensures { (what : Rewrites) (flags : MatchFlags) (p q : Pattern) → IsRewritten what flags (mirror p) (Ok q) → Promises what flags p q }
{}
