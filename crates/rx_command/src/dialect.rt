ghost use Rattle.std.specs.Prelude.{◌≡◌, ◌∷◌, ◌↔◌, [], MatchOption};
ghost use Rattle.std.specs.Str.{chars};
ghost use Rattle.rx_parser.specs.Inputs.{rules_of};
ghost use Rattle.rx_rewrite.specs.Answers.{rules_of as both_options};
ghost use Rattle.rx_command.specs.declared.answer.Answering.{Answering as Answers};
ghost use Rattle.rx_command.specs.declared.dialect.Dialect.{Dialect as Dialects};
ghost use Rattle.rx_command.specs.Command.{IsAnswering, IsServing, dialect_words};
ghost use Rattle.rx_command.specs.Dialects.{is_standard, rules_for};

use rx_base::Text;
use rx_parser::Options;

/// The options that requests are read with.
// Why: docs/DECISIONS.md, 72.
#[derive(Clone, Copy)]
pub enum Dialect {
    /// Two groups may have one name where they never both take part, and buffer boundaries are read; arguments of `RegExp` are read as the Rust crate reads them.
    Default,

    /// No two groups may have one name, and no buffer boundaries are read.
    Strict,

    /// As `Default`, with the arguments of `RegExp` as ECMA-262 has them (12.9.4, 12.9.6).
    Standard,
}

impl Dialect {
    /// The dialect that this word is for, or none.
    fn from_name(word: &str) -> Option<Dialect>
        ensures { MatchOption result
            ((dialect : Dialects) → ¬ (dialect_words dialect ≡ chars word.now ∷ []))
            (λ dialect. dialect_words dialect ≡ chars word.now ∷ []) }
    {
        match word {
            "strict" => Some(Dialect::Strict),
            "standard" => Some(Dialect::Standard),
            _ => None,
        }
    }

    /// The dialect that words begin with, and the words after it.
    pub fn split(words: &[Text]) -> (Dialect, &[Text])
        ensures { (dialect : Dialects) (answering : Answers)
            → IsServing words.now dialect answering ↔ ((dialect ≡ result.0) × IsAnswering result.1.now answering) }
    {
        let Some((word, rest)) = words.split_first() else {
            return (Dialect::Default, words);
        };
        match Dialect::from_name(word.as_str()) {
            Some(dialect) => (dialect, rest),
            None => (Dialect::Default, words),
        }
    }

    /// The options that requests are read with: no offsets, both rules or neither, and arguments of `RegExp` as the standard has them or as the Rust crate does.
    pub fn options(self) -> Options
        ensures pattern_span_offset { result.pattern_span_offset ≡ 0 }
        ensures flags_span_offset { result.flags_span_offset ≡ 0 }
        ensures rules { rules_of result ≡ rules_for self }
        ensures standard_strings { result.standard_strings ≡ is_standard self }
    {
        let has_both = !matches!(self, Dialect::Strict);
        Options {
            pattern_span_offset: 0,
            flags_span_offset: 0,
            duplicate_names: has_both,
            buffer_boundaries: has_both,
            standard_strings: matches!(self, Dialect::Standard),
        }
    }

    /// Whether two groups may have one name where they never both take part, and whether buffer boundaries are read.
    pub fn rules(self) -> (bool, bool)
        ensures { both_options result ≡ rules_for self }
    {
        let options = self.options();
        (options.duplicate_names, options.buffer_boundaries)
    }
}
