//! Laws of the definitions. The functions do nothing: each contract is a law.

ghost use Rattle.std.specs.Prelude.{◌<◌, ◌≤◌, ◌≡◌, ◌≢◌, ◌==◌, ◌&&◌, ◌⊎◌, false, true, ℕ, List, [], ◌∷◌, ◌++◌, Result, ◌↔◌, Bool, Option, Some, ◌+◌, length, ◌||◌, codes, All};
ghost use Rattle.rx_base.specs.Ascii as ascii;
ghost use Rattle.rx_base.specs.Characters.{is_one_of};
ghost use Rattle.rx_base.specs.declared.diagnostic.Diagnostic.{Diagnostic};
ghost use Rattle.rx_base.specs.declared.fault.Fault.{Fault};
ghost use Rattle.rx_base.specs.declared.diagnostic.Diagnostic.TheVariants.{CharacterClassRangeInvalidAtom, InvalidInput, LoneQuantifier};
ghost use Rattle.rx_base.specs.declared.diagnostic.kinds.SetOperator.{SetOperator};
ghost use Rattle.rx_base.specs.declared.span.Span.{Span};
ghost use Rattle.rx_ast.specs.ClassTree.{Class, strings};
ghost use Rattle.rx_ast.specs.Forget.{bare, forget_alternatives, forget_member, same_kind, without_spans};
ghost use Rattle.rx_ast.specs.Parts.{IsNestedPattern};
ghost use Rattle.rx_ast.specs.Tree.{Alternatives, Nodes, mirror};
ghost use Rattle.rx_ast.specs.declared.class.ClassString.{ClassString};
ghost use Rattle.rx_ast.specs.declared.class.ClassStringDisjunction.{ClassStringDisjunction};
ghost use Rattle.rx_ast.specs.declared.term.Pattern.{Pattern};
ghost use Rattle.rx_units.specs.declared.code_point.CodePoint.{CodePoint};
ghost use Rattle.rx_units.specs.Sequences.{ElementRow};
ghost use Rattle.rx_units.specs.Units.{offset_at, values};
ghost use Rattle.rx_model.specs.declared.form.Form.{Form};
ghost use Rattle.rx_model.specs.declared.form.Form.TheVariants as form;
ghost use Rattle.rx_model.specs.declared.mode.Mode.{Mode};
ghost use Rattle.rx_model.specs.Trees.Bodies.{AreQuantified, BeginsWithQuantifier, BeginsWithoutQuantifier};
ghost use Rattle.rx_model.specs.Refusals.Causes.{IsCause, IsCauseAtPlace, begins_modifiers};
ghost use Rattle.rx_model.specs.Refusals.ClassCauses.{IsClassCause, IsNegativeWithStrings, of_negative};
ghost use Rattle.rx_model.specs.Classes.ClassOperands.{IsClassOfOperands, IsClassOfUnion};
ghost use Rattle.rx_model.specs.Classes.ClassPieces.{IsClassOfPieces};
ghost use Rattle.rx_model.specs.Classes.ClassRows.{ClassTokenRow, IsClass, Place, fresh, outside, SpellsAtom};
ghost use Rattle.rx_model.specs.Classes.ClassTokens.{ClassToken, class_tokens, class_tokens_of, member_events, Atom};
ghost use Rattle.rx_model.specs.Classes.ClassContents.{AreContents, Thing, hold_after};
ghost use Rattle.rx_model.specs.Classes.ClassRuns.{Held, empty, is_whole, class_run_from_start};
ghost use Rattle.rx_model.specs.Refusals.ClassPlaces.{IsAtomPlace};
ghost use Rattle.rx_model.specs.Classes.ClassShapes.{IsFitting, IsFlagged, IsFlaggedMember};
ghost use Rattle.rx_model.specs.Classes.ClassStrings.{SpellsStrings};
ghost use Rattle.rx_model.specs.FirstPass.Cuts.{IsCut, TellsApart, TellsGroups};
ghost use Rattle.rx_model.specs.Trees.Early.{IsCodePoint, IsEarlyClass};
ghost use Rattle.rx_model.specs.Inputs.Environment.{Environment, environment, is_sets, is_unicode};
ghost use Rattle.rx_model.specs.declared.mode.Mode.TheVariants.{Legacy, Unicode, Sets};
ghost use Rattle.rx_model.specs.Refusals.Firsts.{GivesWay, IsCauseOfEscape, IsFirst, IsFirstInClass, IsFirstOf, IsFirstOfEscape, NoneBeyond, NoneBeyondInClass, no_item, yielding_of};
ghost use Rattle.rx_model.specs.Refusals.FromStart.{IsCauseFromStart, IsClassCauseFromStart};
ghost use Rattle.rx_model.specs.Inputs.Flags.{flags_ok};
ghost use Rattle.rx_model.specs.Reading.Alternatives.{SpellsAlternative, disjunction_of};
ghost use Rattle.rx_model.specs.Reading.ElementKinds.{NestedPlace};
ghost use Rattle.rx_model.specs.Reading.Headline.{IsFirstRefusal, IsParsed, IsReadAs, IsSameAgain, IsValid};
ghost use Rattle.rx_model.specs.Inputs.Inputs.{Asks, AsksFor, Input};
ghost use Rattle.rx_model.specs.declared.rules.Rules.{Rules};
ghost use Rattle.rx_model.specs.Inputs.Texts.{AreUnits};
ghost use Rattle.rx_model.specs.Groups.GroupNames.{BeginsWithName, SpellsName};
ghost use Rattle.rx_model.specs.Reading.Prefixes.{GoesOn, GoesOnInClass};
ghost use Rattle.rx_model.specs.Refusals.Reached.{IsInside, IsPlace, IsReached, class_environment, span_between};
ghost use Rattle.rx_model.specs.Trees.Events.{alternatives_events, tokens, tokens_of};
ghost use Rattle.rx_model.specs.Refusals.FlagCauses.{IsFlagCause};
ghost use Rattle.rx_model.specs.FirstPass.Marks.{starts};
ghost use Rattle.rx_model.specs.Spelling.OneLine.{IsOneLine};
ghost use Rattle.rx_model.specs.Trees.OpenGroups.{AreOpen, EndsQuantifiable};
ghost use Rattle.rx_model.specs.Spelling.ReadBack.{AreCodeUnits, FitIn, IsReadBack};
ghost use Rattle.rx_model.specs.Reading.Reading.{IsSpanned, IsSpelled, Reads};
ghost use Rattle.rx_model.specs.Reading.Rows.{Spells, TokenRow};
ghost use Rattle.rx_model.specs.Spelling.Spelling.{spelling};
ghost use Rattle.rx_model.specs.Refusals.Stops.{IsStop, begins_class_escape, is_letter};
ghost use Rattle.rx_model.specs.Trees.Shapes.{HasAlternatives, IsWellMade, run};
ghost use Rattle.rx_model.specs.Trees.Token.{Opener, Token, quantifier, character};
ghost use Rattle.rx_model.specs.Quantifiers.Quantifiers.{BeginsWithBraces};
ghost use Rattle.rx_model.specs.Characters.LegacyEscapes.{is_control};
ghost use Rattle.rx_model.specs.Characters.UnitKinds.{unit_kind};

use crate::class_sequence::{
    BarredStrings, ClassPieces, FurtherOperands, StringCharacters, UnionItems,
};
use crate::sequence::{
    BarredAlternatives, ClassTokens, ElementKind, NameCharacters, PatternTokens,
};
pub use rx_units::laws::sequence;

/// Two patterns that one text reads as, in one mode and under the same rules, are equal but for spans.
pub fn unique_reading()
    ensures { (mode : Mode) (rules : Rules) (p q : Pattern) (us : List CodePoint) → Reads mode rules p us → Reads mode rules q us → without_spans p ≡ without_spans q }
{}

/// The tokens that a text begins with are the first of all its tokens, and the others follow them.
pub fn one_row()
    ensures { (e : Environment) (ts ss : List Token) (us rest : List CodePoint) → TokenRow e ts us rest → TokenRow e ss us [] → (more : List Token) × (ss ≡ ts ++ more) × TokenRow e more rest [] }
{}

/// Two rows of tokens that one text begins with are prefixes of one another, whatever they leave.
pub fn row_prefixes()
    ensures { (e : Environment) (ts ss : List Token) (us a b : List CodePoint) → TokenRow e ts us a → TokenRow e ss us b → GoesOn e ts a ss b ⊎ GoesOn e ss b ts a }
{}

/// The same of the tokens of a class, from one place of it.
pub fn class_row_prefixes()
    ensures { (e : Environment) (ts ss : List ClassToken) (q : Place) (us : List CodePoint) (r : Place) (a : List CodePoint) (p : Place) (b : List CodePoint) →
        ClassTokenRow e ts q us r a → ClassTokenRow e ss q us p b → GoesOnInClass e ts r a ss p b ⊎ GoesOnInClass e ss p b ts r a }
{}

/// A text that is refused reads as no tree.
pub fn refusals()
    ensures { (mode : Mode) (rules : Rules) (us : List CodePoint) (start added : ℕ) (d : Diagnostic) → IsCause mode rules us start added d → (p : Pattern) → Reads mode rules p us → ⊥ }
{}

/// No place is reached beyond one at which a refusal holds.
pub fn none_beyond()
    ensures { (mode : Mode) (rules : Rules) (us : List CodePoint) (start added place : ℕ) (d : Diagnostic) → IsCauseAtPlace mode rules us start added place d → NoneBeyond mode rules us place }
{}

/// In a class that is refused no item can begin beyond that place, and no place beyond the class's bracket is reached.
pub fn none_beyond_in_class()
    ensures { (mode : Mode) (rules : Rules) (us : List CodePoint) (start added from : ℕ) (at_class : List CodePoint) (place : ℕ) (d : Diagnostic) →
        IsClassCause mode us start added from at_class place d →
        NoneBeyondInClass (class_environment mode us) from at_class place × (IsPlace mode rules us from at_class → NoneBeyond mode rules us from) }
{}

/// Without `v` at most one refusal holds of a text, with its spans and what it says.
pub fn one_cause()
    ensures { (mode : Mode) (rules : Rules) → is_sets mode ≡ false → (us : List CodePoint) (start added : ℕ) (d e : Diagnostic) → IsCause mode rules us start added d → IsCause mode rules us start added e → d ≡ e }
{}

/// Without `v` a refusal that holds is the first of its text.
pub fn cause_is_first()
    ensures { (mode : Mode) (rules : Rules) → is_sets mode ≡ false → (us : List CodePoint) (start added : ℕ) (d : Diagnostic) → IsCause mode rules us start added d → IsFirst mode rules us start added d }
{}

/// Without `v` at most one refusal holds at places, and it holds at one place.
pub fn one_place()
    ensures { (mode : Mode) (rules : Rules) → is_sets mode ≡ false → (us : List CodePoint) (start added f g : ℕ) (d e : Diagnostic) →
        IsCauseAtPlace mode rules us start added f d → IsCauseAtPlace mode rules us start added g e → (f ≡ g) × (d ≡ e) }
{}

/// At most one refusal is the first of a text.
pub fn one_first()
    ensures { (mode : Mode) (rules : Rules) (us : List CodePoint) (start added : ℕ) (d e : Diagnostic) → IsFirst mode rules us start added d → IsFirst mode rules us start added e → d ≡ e }
{}

/// A refusal that holds at a place is the first of its text where it gives way to none, since it says what stands there; and so is the first of a class that begins
/// at a place that is reached.
// Why: docs/DECISIONS.md, 42.
pub fn first_at_places()
    ensures said { (mode : Mode) (rules : Rules) (us : List CodePoint) (start added place : ℕ) (d : Diagnostic) → IsCauseAtPlace mode rules us start added place d → yielding_of d ≢ no_item →
        IsFirstOf (IsCauseAtPlace mode rules us start added) d }
    ensures in_class { (mode : Mode) (rules : Rules) (us : List CodePoint) (start added from : ℕ) (at_class : List CodePoint) (d : Diagnostic) → IsPlace mode rules us from at_class →
        IsFirstInClass mode us start added from at_class d → IsFirstOf (IsCauseAtPlace mode rules us start added) d }
{}

/// A text has at most one list of units in a form, as the standard decodes it or as the Rust crate does, and a literal has one.
pub fn one_text()
    ensures one { (standard joined : Bool) (text : List ℕ) (form : Form) (us vs : List CodePoint) → AreUnits standard joined text form us → AreUnits standard joined text form vs → us ≡ vs }
    ensures of_literal { (standard joined : Bool) (text : List ℕ) → (us : List CodePoint) × AreUnits standard joined text form.Literal us }
{}

/// An input asks to read at most one list of units, in one mode.
pub fn one_asked()
    ensures mode { (input : Input) (m n : Mode) → AsksFor input m → AsksFor input n → m ≡ n }
    ensures units { (input : Input) (m n : Mode) (us vs : List CodePoint) → Asks input m us → Asks input n vs → (m ≡ n) × (us ≡ vs) }
{}

/// At most one refusal is the first of an input, and none of a valid one.
pub fn one_refusal()
    ensures one { (input : Input) (d e : Diagnostic) → IsFirstRefusal input d → IsFirstRefusal input e → d ≡ e }
    ensures none { (input : Input) (d : Diagnostic) → IsFirstRefusal input d → IsValid input → ⊥ }
{}

/// No literal is refused as a text that is not decoded.
pub fn literals_are_decoded()
    ensures { (input : Input) (span : Span) → input.form ≡ form.Literal → IsFirstRefusal input (InvalidInput span) → ⊥ }
{}

/// Without `v` at most one refusal holds in a class, and at one place of it.
pub fn one_in_class()
    ensures { (mode : Mode) → is_sets mode ≡ false → (us : List CodePoint) (start added from : ℕ) (at_class : List CodePoint) (f g : ℕ) (d e : Diagnostic) →
        IsClassCause mode us start added from at_class f d → IsClassCause mode us start added from at_class g e → (f ≡ g) × (d ≡ e) }
{}

/// Without `v` a refusal that holds in a class is the first of that class.
pub fn class_cause_is_first()
    ensures { (mode : Mode) → is_sets mode ≡ false → (us : List CodePoint) (start added from : ℕ) (at_class : List CodePoint) (place : ℕ) (d : Diagnostic) →
        IsClassCause mode us start added from at_class place d → IsFirstInClass mode us start added from at_class d }
{}

/// Of two refusals that hold in a class one gives way to the other, or they are one, at one place of it.
pub fn two_in_class()
    ensures { (mode : Mode) (us : List CodePoint) (start added from : ℕ) (at_class : List CodePoint) (f g : ℕ) (d e : Diagnostic) →
        IsClassCause mode us start added from at_class f d → IsClassCause mode us start added from at_class g e →
        ((f ≡ g) × (d ≡ e)) ⊎ (GivesWay f d g e ⊎ GivesWay g e f d) }
{}

/// At most one refusal is the first of a class.
pub fn one_first_in_class()
    ensures { (mode : Mode) (us : List CodePoint) (start added from : ℕ) (at_class : List CodePoint) (d e : Diagnostic) →
        IsFirstInClass mode us start added from at_class d → IsFirstInClass mode us start added from at_class e → d ≡ e }
{}

/// A refusal that gives way to none, since it says what stands there, is the first of its class.
pub fn said_is_first_in_class()
    ensures { (mode : Mode) (us : List CodePoint) (start added from : ℕ) (at_class : List CodePoint) (place : ℕ) (d : Diagnostic) →
        IsClassCause mode us start added from at_class place d → yielding_of d ≢ no_item → IsFirstInClass mode us start added from at_class d }
{}

/// Which refusal is the first of a class, or of a text, is the same where that of a negative class which may contain strings is said to hold at its `]` and where it
/// is said to hold where the class begins, on the whole of which the early error stands (ECMA-262, 22.2.1.1); for no other refusal of the text holds then.
pub fn negative_classes()
    ensures in_class { (mode : Mode) (us : List CodePoint) (start added from : ℕ) (at_class : List CodePoint) (d : Diagnostic) →
        IsFirstInClass mode us start added from at_class d ↔ IsFirstOf (IsClassCauseFromStart mode us start added from at_class) d }
    ensures in_text { (mode : Mode) (rules : Rules) (us : List CodePoint) (start added : ℕ) (d : Diagnostic) →
        IsFirstOf (IsCauseAtPlace mode rules us start added) d ↔ IsFirstOf (IsCauseFromStart mode rules us start added) d }
    ensures only { (mode : Mode) (rules : Rules) (us : List CodePoint) (start added from : ℕ) (at_class : List CodePoint) (nested : Bool) (begin place : ℕ) (rest : List CodePoint) →
        IsPlace mode rules us from at_class → IsNegativeWithStrings (class_environment mode us) from at_class nested begin place rest →
        (f : ℕ) (d : Diagnostic) → IsCauseAtPlace mode rules us start added f d → (place ≡ f) × (of_negative nested (span_between us start added begin (place + 1)) ≡ d) }
{}

/// At most one refusal holds of the escape of a character or of a property that is to stand at a place, in every mode.
pub fn one_of_escape()
    ensures { (mode : Mode) (us : List CodePoint) (start added place : ℕ) (rest : List CodePoint) (f g : ℕ) (d e : Diagnostic) →
        IsCauseOfEscape mode us start added place rest f d → IsCauseOfEscape mode us start added place rest g e → (f ≡ g) × (d ≡ e) }
{}

/// A refusal that holds of such an escape is the first of it.
pub fn escape_cause_is_first()
    ensures { (mode : Mode) (us : List CodePoint) (start added place : ℕ) (rest : List CodePoint) (f : ℕ) (d : Diagnostic) →
        IsCauseOfEscape mode us start added place rest f d → IsFirstOfEscape mode us start added place rest d }
{}

/// Each token is a whole row of marks, whatever the environment, so that the first pass of a text (CountLeftCapturingParensWithin of ECMA-262, 22.2.1.2)
/// sees the groups that its tokens open and close.
pub fn token_marks()
    ensures { (e : Environment) (t : Token) (w rest : List CodePoint) → Spells e t w rest → IsCut e.mode t w rest }
{}

/// The number of groups and the names that the first pass of a text finds are those of any tree that it spells.
pub fn own_groups()
    ensures { (mode : Mode) (rules : Rules) (p : Pattern) (us : List CodePoint) → IsSpelled mode rules p us → TellsGroups mode p us }
{}

/// No two names clash by the first pass exactly where the tree keeps the early rule on names (ECMA-262, 22.2.1.1), whether two groups may have one name or not.
pub fn names_apart()
    ensures { (mode : Mode) (rules : Rules) (p : Pattern) (us : List CodePoint) → IsSpelled mode rules p us → TellsApart mode rules.duplicate_names p us }
{}

/// The canonical spelling of a pattern of some units is one line: not empty, and with no tab and no LineTerminator (ECMA-262, 12.3) in it.
pub fn one_line()
    ensures { (mode : Mode) (rules : Rules) (p : Pattern) (us : List CodePoint) → Reads mode rules p us → us ≢ [] → IsOneLine (spelling (bare p) mode) }
{}

/// The canonical spelling of a pattern reads as a pattern that is equal but for spans and character kinds.
pub fn read_back()
    ensures { (mode : Mode) (rules : Rules) (p : Pattern) (us : List CodePoint) → Reads mode rules p us → FitIn mode us → us ≢ [] → IsReadBack mode rules p }
{}

/// So whatever a parser answers to the canonical spelling of a pattern is that pattern, but for spans and character kinds, or out of memory.
pub fn again()
    ensures { (input : Input) (mode : Mode) (answer : Result Pattern Fault) → IsParsed (λ p. p) input answer → input.form ≡ form.Literal → AsksFor input mode →
        (p : Pattern) (us : List CodePoint) → Reads mode input.rules p us → FitIn mode us → us ≢ [] → input.text ≡ spelling (bare p) mode → IsSameAgain p answer }
{}

/// Two trees that units of equal values read as, under one mode and the same rules, are equal but for spans and character kinds.
pub fn same_values()
    ensures { (mode : Mode) (rules : Rules) (p q : Pattern) (us vs : List CodePoint) → Reads mode rules p us → Reads mode rules q vs → values us ≡ values vs → bare p ≡ bare q }
{}

/// So it is with two inputs, in whatever forms and however their quoted texts are decoded, that ask to read units of equal values in one mode and under the same
/// rules: of a literal, say, and of a quoted text.
pub fn same_inputs()
    ensures { (a b : Input) (mode : Mode) (p q : Pattern) (read : IsReadAs a mode p) (read_too : IsReadAs b mode q) → a.rules ≡ b.rules → values read.units ≡ values read_too.units → bare p ≡ bare q }
{}

/// With neither `u` nor `v` some token begins at each backslash that does not end the text, but at one before a `k` where `\k` is a reference.
pub fn legacy_backslash()
    ensures { (e : Environment) (u v : CodePoint) (us : List CodePoint) → is_unicode e.mode ≡ false → u.value ≡ ascii.backslash → (v.value == ascii.k && e.named) ≡ false →
        (t : Token) × (w : List CodePoint) × (rest : List CodePoint) × (u ∷ v ∷ us ≡ w ++ rest) × Spells e t w rest }
{}

/// Rows of tokens and the characters of a name are lists of elements, and so are the tokens of a class, which end before a stop. A disjunction that ends before a
/// stop, at a `)` or at the end of the text, is a first alternative and a list of further ones; so is a pattern.
pub fn elements()
    ensures tokens { (e : Environment) (ts : List Token) (us rest : List CodePoint) →
        TokenRow e ts us rest ↔ ElementRow (⟦<PatternTokens as ElementKind>⟧.spells e) (⟦<PatternTokens as ElementKind>⟧.following e) ts tt us tt rest }
    ensures class_tokens { (e : Environment) (c : Class) (w rest : List CodePoint) → IsClass e c w rest →
        (q : Option NestedPlace) × ⟦<ClassTokens as ElementKind>⟧.is_stop e q rest ×
        ElementRow (⟦<ClassTokens as ElementKind>⟧.spells e) (⟦<ClassTokens as ElementKind>⟧.following e) (class_tokens c) (Some (0, outside)) (w ++ rest) q rest }
    ensures names { (unicode_mode : Bool) (name us rest : List ℕ) →
        ((w : List ℕ) × (us ≡ w ++ rest) × SpellsName unicode_mode name w rest) ↔
        ElementRow (⟦<NameCharacters as ElementKind>⟧.spells unicode_mode) (⟦<NameCharacters as ElementKind>⟧.following unicode_mode) name true us false rest }
    ensures disjunctions { (e : Environment) (all : Alternatives) (us rest : List CodePoint) → ⟦<BarredAlternatives as ElementKind>⟧.is_stop e tt rest →
        (HasAlternatives e.mode all × TokenRow e (tokens_of (alternatives_events all)) us rest) ↔
        ((first : Nodes) × (others : List Nodes) × (w : List CodePoint) × (between : List CodePoint) × (us ≡ w ++ between) × (forget_alternatives same_kind all ≡ disjunction_of (first ∷ others)) ×
        SpellsAlternative e first w between × ElementRow (⟦<BarredAlternatives as ElementKind>⟧.spells e) (⟦<BarredAlternatives as ElementKind>⟧.following e) others tt between tt rest) }
    ensures patterns { (mode : Mode) (rules : Rules) (p : Pattern) (us : List CodePoint) →
        IsSpelled mode rules p us ↔
        ((first : Nodes) × (others : List Nodes) × (w : List CodePoint) × (between : List CodePoint) × (us ≡ w ++ between) × (without_spans p ≡ disjunction_of (first ∷ others)) ×
        SpellsAlternative (environment mode rules p) first w between ×
        ElementRow (⟦<BarredAlternatives as ElementKind>⟧.spells (environment mode rules p)) (⟦<BarredAlternatives as ElementKind>⟧.following (environment mode rules p)) others tt between tt []) }
    ensures stops { (e : Environment) (u : CodePoint) (rest : List CodePoint) → ⟦<BarredAlternatives as ElementKind>⟧.is_stop e tt [] × (u.value ≡ ascii.right_parenthesis → ⟦<BarredAlternatives as ElementKind>⟧.is_stop e tt (u ∷ rest)) }
{}

/// A text begins with at most one class.
pub fn one_class()
    ensures { (e : Environment) (c d : Class) (w rest v back : List CodePoint) → IsClass e c w rest → IsClass e d v back → w ++ rest ≡ v ++ back → (c ≡ d) × (rest ≡ back) }
{}

/// A text begins with at most one name: with one that no further character goes on in, and with one before a `>`. Units that stand before one rest spell at most one.
pub fn one_name()
    ensures longest { (unicode_mode : Bool) (us name other : List ℕ) (n m : ℕ) → BeginsWithName unicode_mode us name n → BeginsWithName unicode_mode us other m → (name ≡ other) × (n ≡ m) }
    ensures closed { (unicode_mode : Bool) (name other w rest v back : List ℕ) → SpellsName unicode_mode name w (ascii.greater_than ∷ rest) → SpellsName unicode_mode other v (ascii.greater_than ∷ back) →
        w ++ (62 ∷ rest) ≡ v ++ (62 ∷ back) → (name ≡ other) × (rest ≡ back) }
    ensures spelled { (unicode_mode : Bool) (name other w rest : List ℕ) → SpellsName unicode_mode name w rest → SpellsName unicode_mode other w rest → name ≡ other }
{}

/// A pattern that is well made has tokens that are accepted and leave no group open (ECMA-262, 22.2.1).
pub fn well_made_is_accepted()
    ensures { (mode : Mode) (p : Pattern) → IsWellMade mode p → (ready : Bool) × (run mode (tokens p) [] false ≡ Some ([], ready)) }
{}

/// The groups that are open after tokens that are accepted are the openers that no closer closes, the innermost first, and no closer closes another.
pub fn groups_are_open()
    ensures { (mode : Mode) (ts : List Token) (open_groups : List Opener) (ready : Bool) → run mode ts [] false ≡ Some (open_groups, ready) → AreOpen open_groups ts }
{}

/// A quantifier may follow tokens that are accepted exactly where they end with an Atom or, with neither `u` nor `v`, a QuantifiableAssertion (ECMA-262,
/// 22.2.1 and B.1.2).
pub fn quantifiers_may_follow()
    ensures sound { (mode : Mode) (ts : List Token) (open_groups : List Opener) → run mode ts [] false ≡ Some (open_groups, true) → EndsQuantifiable mode ts }
    ensures whole { (mode : Mode) (ts : List Token) (open_groups : List Opener) (ready : Bool) → run mode ts [] false ≡ Some (open_groups, ready) → EndsQuantifiable mode ts → ready ≡ true }
{}

/// What a bracket of a class may hold is a front part of contents, where it may close whole contents, and all whole contents are held (ECMA-262, 22.2.1).
pub fn class_contents()
    ensures front { (things : List Thing) (held : Held) → hold_after things empty ≡ Some held → (more : List Thing) × AreContents (things ++ more) }
    ensures sound { (things : List Thing) (held : Held) → hold_after things empty ≡ Some held → is_whole held ≡ true → AreContents things }
    ensures whole { (things : List Thing) → AreContents things → (held : Held) × (hold_after things empty ≡ Some held) × (is_whole held ≡ true) }
{}

/// Where terms end no token begins but the closer of a group.
pub fn terms_end()
    ensures { (e : Environment) (us : List CodePoint) (following : ℕ) → IsStop e us following → starts ascii.right_parenthesis (values us) ≡ false →
        (t : Token) (w rest : List CodePoint) → us ≡ w ++ rest → Spells e t w rest → ⊥ }
{}

/// The tokens of a class are accepted as a whole class where it is free of early errors, and, where its flags are right, nowhere else, in any mode
/// (ECMA-262, 22.2.1.1).
pub fn classes_close()
    ensures sound { (c : Class) → IsFitting c → IsEarlyClass c → class_run_from_start (class_tokens c) ≡ Some [] }
    ensures whole { (c : Class) → IsFitting c → IsFlagged c → class_run_from_start (class_tokens c) ≡ Some [] → IsEarlyClass c }
{}

/// Flags that are refused are no flags, what is no flags is refused, and for one cause (ECMA-262, 22.2.3.3).
pub fn flags_refused()
    ensures sound { (us : List CodePoint) (start added : ℕ) (d : Diagnostic) → IsFlagCause us start added d → flags_ok (values us) ≡ false }
    ensures whole { (us : List CodePoint) (start added : ℕ) → flags_ok (values us) ≡ false → (d : Diagnostic) × IsFlagCause us start added d }
    ensures one { (us : List CodePoint) (start added : ℕ) (d e : Diagnostic) → IsFlagCause us start added d → IsFlagCause us start added e → d ≡ e }
{}

/// With neither `u` nor `v` an atom of a class begins at a backslash exactly where a class escape does by the rules of the mode.
pub fn legacy_class_backslash()
    ensures some { (e : Environment) (u : CodePoint) (us : List CodePoint) → is_unicode e.mode ≡ false → u.value ≡ ascii.backslash → begins_class_escape e (values us) ≡ true →
        (a : Atom) × (w : List CodePoint) × (rest : List CodePoint) × (u ∷ us ≡ w ++ rest) × SpellsAtom e a w rest }
    ensures none { (e : Environment) (u : CodePoint) (us : List CodePoint) → is_unicode e.mode ≡ false → u.value ≡ ascii.backslash → begins_class_escape e (values us) ≡ false →
        (a : Atom) (w rest : List CodePoint) → u ∷ us ≡ w ++ rest → SpellsAtom e a w rest → ⊥ }
{}

/// With neither `u` nor `v` no escape of a character or of a property is refused by itself (ECMA-262, B.1.2).
pub fn legacy_escapes()
    ensures { (mode : Mode) → is_unicode mode ≡ false → (us : List CodePoint) (start added place : ℕ) (rest : List CodePoint) (f : ℕ) (d : Diagnostic) →
        IsCauseOfEscape mode us start added place rest f d → ⊥ }
{}

/// Where an atom may stand in a class, or the end of a range, so much of the text is left as its place says.
pub fn atom_places()
    ensures { (e : Environment) (from : ℕ) (at_class : List CodePoint) (place : ℕ) (rest : List CodePoint) → IsAtomPlace e from at_class place rest →
        from + length at_class ≡ place + length rest }
{}

/// A token that begins with the units of a quantifier is that quantifier, in every mode (PatternCharacter, ECMA-262, 22.2.1; InvalidBracedQuantifier, B.1.2). So where
/// they stand after some of a tree's tokens, it is the next of them, and one may stand there; and an atom that is no quantifier's body stands before none.
pub fn quantifiers_stand()
    ensures only { (e : Environment) (t : Token) (w rest : List CodePoint) (min : ℕ) (max : Option ℕ) → Spells e t w rest → BeginsWithQuantifier (w ++ rest) min max →
        (greedy : Bool) × (t ≡ quantifier min max greedy) }
    ensures next { (mode : Mode) (rules : Rules) (p : Pattern) (us : List CodePoint) → IsSpelled mode rules p us → (before after : List Token) (rest : List CodePoint) (min : ℕ) (max : Option ℕ) →
        tokens p ≡ before ++ after → TokenRow (environment mode rules p) before us rest → BeginsWithQuantifier rest min max → AreQuantified mode before after min max }
    ensures none { (mode : Mode) (rules : Rules) (p : Pattern) (us : List CodePoint) → IsSpelled mode rules p us → (before after : List Token) (rest : List CodePoint) →
        tokens p ≡ before ++ after → TokenRow (environment mode rules p) before us rest → BeginsWithoutQuantifier after → (min : ℕ) (max : Option ℕ) → BeginsWithQuantifier rest min max → ⊥ }
{}

/// A quantifier with nothing before it to repeat has a refusal of its own with `u` or `v`; and with `u` alone a range is refused since an end of it is no
/// character (ECMA-262, 22.2.1.1 and B.1).
pub fn legacy_refusals()
    ensures lone { (mode : Mode) (rules : Rules) (us : List CodePoint) (start added place : ℕ) (span : Span) → IsCauseAtPlace mode rules us start added place (LoneQuantifier span) → is_unicode mode ≡ true }
    ensures range { (mode : Mode) (us : List CodePoint) (start added from : ℕ) (at_class : List CodePoint) (place : ℕ) (span : Span) →
        IsClassCause mode us start added from at_class place (CharacterClassRangeInvalidAtom span) → mode ≡ Unicode }
{}

/// With neither `u` nor `v` each unit stands for itself that is none of those that ExtendedPatternCharacter leaves out, where no quantifier in braces begins
/// (ECMA-262, B.1.2).
pub fn legacy_units()
    ensures { (e : Environment) (u : CodePoint) (us : List CodePoint) → is_unicode e.mode ≡ false → is_one_of (codes "^$\\.*+?()[|") u.value ≡ false →
        (BeginsWithBraces (values (u ∷ us)) → ⊥) → Spells e (character (unit_kind u.escape_kind) u.value) (u ∷ []) us }
{}

/// With neither `u` nor `v` the letters before which `\c` is an escape are the AsciiLetters, and in a class the decimal digits and `_` too (ECMA-262, B.1.2).
pub fn legacy_controls()
    ensures inside { (c : ℕ) → is_control true c ≡ (is_letter c || is_one_of (codes "0123456789_") c) }
    ensures outside { (c : ℕ) → is_control false c ≡ is_letter c }
{}

/// With neither `u` nor `v` a class stands where a `[` does that is free of early errors, or a refusal holds in it.
pub fn legacy_classes()
    ensures { (us : List CodePoint) (start added from : ℕ) (u : CodePoint) (text : List CodePoint) → u.value ≡ ascii.left_bracket → AreCodeUnits text →
        ((c : Class) × (w : List CodePoint) × (rest : List CodePoint) × (u ∷ text ≡ w ++ rest) × IsClass (class_environment Legacy us) c w rest × IsEarlyClass c)
        ⊎ ((f : ℕ) × (d : Diagnostic) × IsClassCause Legacy us start added from (u ∷ text) f d) }
{}

/// With `v` a class stands where a `[` does that is free of early errors, or a refusal holds in it.
pub fn classes_or_refusals()
    ensures { (us : List CodePoint) (start added from : ℕ) (u : CodePoint) (text : List CodePoint) → u.value ≡ ascii.left_bracket → All (λ u. IsCodePoint u.value) text →
        ((c : Class) × (w : List CodePoint) × (rest : List CodePoint) × (u ∷ text ≡ w ++ rest) × IsClass (class_environment Sets us) c w rest × IsEarlyClass c)
        ⊎ ((f : ℕ) × (d : Diagnostic) × IsClassCause Sets us start added from (u ∷ text) f d) }
{}

/// With neither `u` nor `v`, at a place that is reached, the text ends with no group open, a further place is reached, or a refusal holds; but for modifiers, which
/// no mode changes.
pub fn legacy_places()
    ensures { (rules : Rules) (us : List CodePoint) (start added place : ℕ) (open_groups : List Opener) (ready : Bool) (rest : List CodePoint) → AreCodeUnits rest →
        IsReached Legacy rules us place open_groups ready rest → begins_modifiers (values rest) ≡ false →
        ((rest ≡ []) × (open_groups ≡ []))
        ⊎ (((further : ℕ) × (back : List CodePoint) × (place < further) × IsPlace Legacy rules us further back)
        ⊎ ((f : ℕ) × (d : Diagnostic) × IsCauseAtPlace Legacy rules us start added f d)) }
{}

/// Where a group is open at a place that is reached, the innermost began at such a place, and what stands in it opens and closes groups of its own alone.
pub fn innermost_group()
    ensures { (mode : Mode) (rules : Rules) (us : List CodePoint) (place : ℕ) (group : Opener) (open_groups : List Opener) (ready : Bool) (rest : List CodePoint) →
        IsReached mode rules us place (group ∷ open_groups) ready rest → (from : ℕ) × IsInside mode rules us from group place rest }
{}

/// A pattern that is spanned over offsets that do not fall is nested.
pub fn spanned_is_nested()
    ensures { (mode : Mode) (rules : Rules) (p : Pattern) (us : List CodePoint) (first added : ℕ) → ((i j : ℕ) → i ≤ j → offset_at first us i ≤ offset_at first us j) → IsSpanned mode rules p us first added → IsNestedPattern (mirror p) }
{}

/// Without `v` a class is pieces in brackets, and its members are what they give (NonemptyClassRanges, ECMA-262, 22.2.1; CharacterRangeOrUnion, B.1.2.8.1); and the
/// pieces end before a stop.
pub fn class_pieces()
    ensures whole { (e : Environment) (c : Class) (w rest : List CodePoint) → is_sets e.mode ≡ false → (IsClass e c w rest ↔ IsClassOfPieces e c w rest) }
    ensures elements { (e : Environment) (c : Class) (w rest : List CodePoint) (of : IsClassOfPieces e c w rest) →
        ElementRow (⟦<ClassPieces as ElementKind>⟧.spells e) (⟦<ClassPieces as ElementKind>⟧.following e) of.pieces tt of.brackets.inside tt (of.brackets.closer ∷ rest)
        × ⟦<ClassPieces as ElementKind>⟧.is_stop e tt (of.brackets.closer ∷ rest) }
{}

/// Class strings in a class with `v`, of which there are some, without spans and with the right flags, are what their tokens spell (ClassStringDisjunction, ECMA-262,
/// 22.2.1); the characters of the first end before a stop, and so do the others.
pub fn class_strings()
    ensures whole { (e : Environment) (d : ClassStringDisjunction) (w rest : List CodePoint) → d.body ≢ [] → IsFlaggedMember (strings d) → forget_member same_kind (strings d) ≡ strings d →
        (SpellsStrings e d.body w rest ↔ ClassTokenRow e (class_tokens_of (member_events (strings d))) fresh (w ++ rest) fresh rest) }
    ensures first { (e : Environment) (ss : List ClassString) (w rest : List CodePoint) (s : SpellsStrings e ss w rest) →
        ElementRow (⟦<StringCharacters as ElementKind>⟧.spells e) (⟦<StringCharacters as ElementKind>⟧.following e) s.first tt s.inside tt s.further
        × ⟦<StringCharacters as ElementKind>⟧.is_stop e tt s.further }
    ensures others { (e : Environment) (ss : List ClassString) (w rest : List CodePoint) (s : SpellsStrings e ss w rest) →
        ElementRow (⟦<BarredStrings as ElementKind>⟧.spells e) (⟦<BarredStrings as ElementKind>⟧.following e) s.more tt s.further tt (s.closer ∷ rest)
        × ⟦<BarredStrings as ElementKind>⟧.is_stop e tt (s.closer ∷ rest) }
{}

/// With `v` a class is the items of a union in brackets, or the operands of an intersection or of a subtraction (ClassUnion, ClassIntersection and
/// ClassSubtraction, ECMA-262, 22.2.1); and the items end before a stop, and so do the operands after the first.
pub fn class_operands()
    ensures whole { (e : Environment) (c : Class) (w rest : List CodePoint) → is_sets e.mode ≡ true →
        (IsClass e c w rest ↔ (IsClassOfUnion e c w rest ⊎ ((o : SetOperator) × IsClassOfOperands e o c w rest))) }
    ensures items { (e : Environment) (c : Class) (w rest : List CodePoint) (of : IsClassOfUnion e c w rest) →
        ElementRow (⟦<UnionItems as ElementKind>⟧.spells e) (⟦<UnionItems as ElementKind>⟧.following e) of.items tt of.brackets.inside tt (of.brackets.closer ∷ rest)
        × ⟦<UnionItems as ElementKind>⟧.is_stop e tt (of.brackets.closer ∷ rest) }
    ensures operands { (e : Environment) (o : SetOperator) (c : Class) (w rest : List CodePoint) (of : IsClassOfOperands e o c w rest) →
        ElementRow (⟦<FurtherOperands as ElementKind>⟧.spells (e, o)) (⟦<FurtherOperands as ElementKind>⟧.following (e, o)) of.more tt of.further tt (of.brackets.closer ∷ rest)
        × ⟦<FurtherOperands as ElementKind>⟧.is_stop (e, o) tt (of.brackets.closer ∷ rest) }
{}
