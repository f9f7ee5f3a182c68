//! Laws of the text of a reply.

ghost use Rattle.std.specs.Prelude.{◌≡◌, ◌++◌, ◌∷◌, ◌≤◌, [], All, Bool, List, ℕ, Some};
ghost use Rattle.json.specs.Json.{Json, document, max_depth, value};
ghost use Rattle.json.specs.Lex.{tokens};
ghost use Rattle.json.specs.Tree.{depth};
ghost use Rattle.rx_base.specs.Ascii as ascii;
ghost use Rattle.rx_json_reply.specs.Answers.{IsAnswerTo, IsJsonReply};

/// A reply without its LF is the answer as JSON, at any depth that reaches to the answer's.
pub fn reply_is_json()
    ensures { (line reply : List ℕ) (ok : Bool) → IsJsonReply line reply ok → (answer : Json) × (text : List ℕ)
        × IsAnswerTo line answer ok × (reply ≡ text ++ ascii.line_feed ∷ []) × (value (depth answer) (tokens text) ≡ Some (answer, [])) }
{}

/// Where an answer nests no more than 128 deep, the reply without its LF is a document of the kit's reader.
pub fn reply_is_document()
    ensures { (line reply : List ℕ) (ok : Bool) → (r : IsJsonReply line reply ok) → depth r.answer ≤ max_depth → document r.text ≡ Some r.answer }
{}

/// A reply is one line: it ends with LF, and no other LF stands in it.
pub fn reply_is_one_line()
    ensures { (line reply : List ℕ) (ok : Bool) → IsJsonReply line reply ok → (text : List ℕ)
        × (reply ≡ text ++ ascii.line_feed ∷ []) × All (λ byte. ¬ (byte ≡ ascii.line_feed)) text }
{}
