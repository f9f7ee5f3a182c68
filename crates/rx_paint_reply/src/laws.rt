//! Laws of the replies. The functions do nothing: each contract is a law.

ghost use Rattle.std.specs.Prelude.{◌≡◌, ◌++◌, ℕ, List, codes, length};
ghost use Rattle.std.specs.Str.{IsUtf8, chars};
ghost use Rattle.rx_ast.specs.Tree.{mirror};
ghost use Rattle.rx_ast.specs.Parts.{IsNestedPattern};
ghost use Rattle.rx_ast.specs.declared.term.Pattern.{Pattern};
ghost use Rattle.rx_model.specs.declared.form.Form.TheVariants.{Literal};
ghost use Rattle.rx_model.specs.declared.mode.Mode.{Mode};
ghost use Rattle.rx_model.specs.Inputs.Inputs.{Input};
ghost use Rattle.rx_model.specs.Inputs.Texts.{literal_text};
ghost use Rattle.rx_model.specs.Reading.Headline.{IsReadAs};
ghost use Rattle.rx_paint.specs.declared.token.Token.{Token};
ghost use Rattle.rx_paint.specs.Runs.{HaveNoOther, Tile, pattern_tokens};
ghost use Rattle.rx_paint_reply.specs.Colors.{color_reply, shown_text};
ghost use Rattle.rx_paint_reply.specs.Escapes.{HaveNoControl, without_escapes};

/// Where tokens tile a text, the reply in colour is, without its escapes, the text as it is shown.
pub fn text_stands_between_escapes()
    ensures { (text : List ℕ) (ts : List Token) → Tile 0 (length text) ts → without_escapes (color_reply text ts) ≡ codes "ok\t" ++ shown_text text ++ codes "\n" }
{}

/// A text with no control character is shown as it is.
pub fn text_is_shown()
    ensures { (text : List ℕ) → HaveNoControl text → shown_text text ≡ text }
{}

/// A pattern that is read is nested.
pub fn read_is_nested()
    ensures { (input : Input) (mode : Mode) (p : Pattern) (bytes : List ℕ) → IsUtf8 bytes → input.text ≡ chars bytes → IsReadAs input mode p → IsNestedPattern (mirror p) }
{}

/// A pattern that is read has no token Other.
pub fn read_has_no_other()
    ensures { (input : Input) (mode : Mode) (p : Pattern) (bytes : List ℕ) → IsUtf8 bytes → input.text ≡ chars bytes → IsReadAs input mode p → HaveNoOther (pattern_tokens (mirror p)) }
{}

/// A pattern that is read from a literal has the span of its text.
pub fn literal_is_spanned()
    ensures { (input : Input) (mode : Mode) (p : Pattern) (bytes : List ℕ) → IsUtf8 bytes → input.text ≡ chars bytes → input.form ≡ Literal → input.text_offset ≡ 0
        → IsReadAs input mode p → p.span ≡ record { start = 0; end = length (literal_text bytes) } }
{}

/// Of a literal that is read, the reply in colour is, without its escapes, the text as it is shown.
pub fn literal_stands_between_escapes()
    ensures { (input : Input) (mode : Mode) (p : Pattern) (bytes : List ℕ) → IsUtf8 bytes → input.text ≡ chars bytes → input.form ≡ Literal → input.text_offset ≡ 0
        → IsReadAs input mode p → without_escapes (color_reply (literal_text bytes) (pattern_tokens (mirror p))) ≡ codes "ok\t" ++ shown_text (literal_text bytes) ++ codes "\n" }
{}
