//! Laws of the definitions. The functions do nothing: each contract is a law.

ghost use Rattle.std.specs.Prelude.{◌≡◌, ◌↔◌, ◌+◌, ℕ, Bool, List, [], All};
ghost use Rattle.rx_base.specs.declared.diagnostic.Diagnostic.{Diagnostic};
ghost use Rattle.rx_ast.specs.declared.term.Pattern.{Pattern};
ghost use Rattle.rx_units.specs.declared.code_point.CodePoint.{CodePoint};
ghost use Rattle.rx_units.specs.Sources.{Decodes};
ghost use Rattle.rx_units.specs.Units.{literal_units, offset_at};
ghost use Rattle.rx_model.specs.declared.form.Form.{Form};
ghost use Rattle.rx_model.specs.Inputs.Texts.{AreUnits};
ghost use Rattle.rx_model.specs.declared.mode.Mode.{Mode};
ghost use Rattle.rx_model.specs.Inputs.Inputs.{Input};
ghost use Rattle.rx_model.specs.Reading.Headline.{IsReadAs, IsFirstRefusal};
ghost use Rattle.rx_refusal.specs.declared.field.Field.TheVariants as field;
ghost use Rattle.rx_refusal.specs.Fields.{IsFieldOf, offset_in, text_in};
ghost use Rattle.rx_place_laws.specs.Between.{AreAscii, HasUnitsBefore, IsBetweenCharacters};
ghost use Rattle.rx_place_laws.specs.Ends.{HoldsInTree, HoldsInRefusal};
ghost use Rattle.rx_place_laws.specs.Texts.{IsEmptyText, IsNarrow, IsTextOf, StandBetweenCharacters};

/// Each offset of a literal stands between characters of it, and each offset of a quoted text between characters of that text with its quotes, however it is
/// decoded. The two units of a character past FFFF share its span, so that none ends within it.
pub fn offsets_are_between_characters()
    ensures literal { (joined : Bool) (text : List ℕ) (added place : ℕ) → IsBetweenCharacters text added (offset_at 0 (literal_units joined 0 text) place + added) }
    ensures quoted { (standard joined : Bool) (text : List ℕ) (us : List CodePoint) (added place : ℕ) → Decodes standard joined text us → IsBetweenCharacters text added (offset_at 1 us place + added) }
{}

/// Each node of a pattern that is read begins and ends between characters, and so do modifiers.
pub fn nodes_are_between_characters()
    ensures { (input : Input) (mode : Mode) (tree : Pattern) → IsReadAs input mode tree → StandBetweenCharacters input (λ P. HoldsInTree P tree) }
{}

/// The spans of the first refusal of an input begin and end between characters: of its flags, or of the text of its pattern.
pub fn refusals_are_between_characters()
    ensures flags { (input : Input) (refusal : Diagnostic) → IsFirstRefusal input refusal → IsFieldOf input refusal field.Flags →
        HoldsInRefusal (HasUnitsBefore (text_in input field.Flags) (text_in input field.Flags) (offset_in input field.Flags)) refusal }
    ensures pattern { (input : Input) (refusal : Diagnostic) → IsFirstRefusal input refusal → IsFieldOf input refusal field.Pattern → StandBetweenCharacters input (λ P. HoldsInRefusal P refusal) }
{}

/// The places that are told of the pattern of an input lie in one text.
pub fn places_lie_in_one_text()
    ensures { (input : Input) (text other : List ℕ) → IsTextOf input text → IsTextOf input other → text ≡ other }
{}

/// A place between characters of a text that is counted in this same text is in UTF-16 the number of code units before it; so it is where both are ASCII.
pub fn places_between_characters_have_units()
    ensures own { (text : List ℕ) (added place : ℕ) → IsBetweenCharacters text added place → HasUnitsBefore text text added place }
    ensures ascii { (own text : List ℕ) (added place : ℕ) → AreAscii own → AreAscii text → IsBetweenCharacters text added place → HasUnitsBefore own text added place }
{}

/// A text has no units exactly where it is an empty literal, or a quoted text of line continuations, if any; all but <LS> and <PS> in it is ASCII.
pub fn empty_texts_have_no_units()
    ensures empty { (standard joined : Bool) (text : List ℕ) (form : Form) → AreUnits standard joined text form [] ↔ IsEmptyText standard text form }
    ensures characters { (standard : Bool) (text : List ℕ) (form : Form) → IsEmptyText standard text form → All IsNarrow text }
{}
