ghost use Rattle.std.specs.Prelude.{◌≡◌, ◌+◌, ◌<◌, ◌^◌, max, IfOk, length};
ghost use Rattle.rx_model.specs.Inputs.Inputs.{AsksFor};
ghost use Rattle.rx_model.specs.Reading.Headline.{IsParsed};
ghost use Rattle.rx_model.specs.declared.form.Form.TheVariants.{Literal};
ghost use Rattle.rx_parser.specs.Inputs.{flags_length, input_of};

use crate::{Input, Options};
use rx_ast::Pattern;
use rx_base::Fault;
use rx_model::{Form, Mode};
use std::alloc::Global;

/// Reads the pattern of a literal: the text between its slashes, and its flags.
#[derive(Drop)]
pub struct LiteralParser<'a> {
    pub alloc: Global,
    pub pattern_text: &'a str,
    pub flags_text: Option<&'a str>,
    pub options: Options,
}

impl<'a> LiteralParser<'a> {
    /// A parser of these texts. The flags text is absent where there are no flags. The options hold what is added to each offset of an answer, in bytes, and
    /// say what is read. Literals have no quotes, so `standard_strings` changes nothing.
    pub fn new(
        alloc: Global,
        pattern_text: &'a str,
        flags_text: Option<&'a str>,
        options: Options,
    ) -> LiteralParser<'a>
        ensures pattern_text { result.pattern_text ≡ pattern_text.entry }
        ensures flags_text { result.flags_text ≡ flags_text.entry }
        ensures options { result.options ≡ options }
    {
        LiteralParser {
            alloc,
            pattern_text,
            flags_text,
            options,
        }
    }

    /// The tree of the pattern (ECMA-262, 22.2.3.4). An empty text is read as `(?:)`.
    pub fn parse(self) -> Result<Pattern, Fault>
        requires pattern { self.options.pattern_span_offset + max (length self.pattern_text.now) 4 < 2 ^ 32 }
        requires flags { self.options.flags_span_offset + flags_length self.flags_text < 2 ^ 32 }

        // Ok on valid input and on no other, with the only tree; else the first refusal, or out of memory.
        ensures { IsParsed (λ p. p) (input_of Literal self.entry.pattern_text.now self.entry.flags_text self.entry.options) result }
    {
        Ok(self.parse_with_mode()?.0)
    }

    /// The same tree, and the mode that the flags ask for.
    pub fn parse_with_mode(self) -> Result<(Pattern, Mode), Fault>
        requires pattern { self.options.pattern_span_offset + max (length self.pattern_text.now) 4 < 2 ^ 32 }
        requires flags { self.options.flags_span_offset + flags_length self.flags_text < 2 ^ 32 }
        ensures answered { IsParsed (λ it. it.0) (input_of Literal self.entry.pattern_text.now self.entry.flags_text self.entry.options) result }
        ensures mode { IfOk result (λ it. AsksFor (input_of Literal self.entry.pattern_text.now self.entry.flags_text self.entry.options) it.1) }
    {
        let LiteralParser {
            alloc,
            pattern_text,
            flags_text,
            options,
        } = self;
        let form = Form::Literal;
        let input = Input {
            form,
            pattern_text,
            flags_text,
            options,
        };
        input.parse(alloc)
    }
}
