ghost use Rattle.std.specs.Prelude.{◌≡◌, ◌+◌, ◌<◌, ◌^◌, max, IfOk, length};
ghost use Rattle.rx_model.specs.Inputs.Inputs.{AsksFor};
ghost use Rattle.rx_model.specs.Reading.Headline.{IsParsed};
ghost use Rattle.rx_model.specs.declared.form.Form.TheVariants.{Constructor};
ghost use Rattle.rx_parser.specs.Inputs.{flags_length, input_of};

use crate::{Input, Options};
use rx_ast::Pattern;
use rx_base::Fault;
use rx_model::{Form, Mode};
use std::alloc::Global;

/// Reads the pattern of a call of `RegExp`: the text of its first argument, and that of its second, each with its quotes, a string or a template without
/// substitutions.
#[derive(Drop)]
pub struct ConstructorParser<'a> {
    pub alloc: Global,
    pub pattern_text: &'a str,
    pub flags_text: Option<&'a str>,
    pub options: Options,
}

impl<'a> ConstructorParser<'a> {
    /// A parser of these texts. The flags text is absent where there are no flags. The options hold what is added to each offset of an answer, in bytes, and
    /// say what is read.
    pub fn new(
        alloc: Global,
        pattern_text: &'a str,
        flags_text: Option<&'a str>,
        options: Options,
    ) -> ConstructorParser<'a>
        ensures pattern_text { result.pattern_text ≡ pattern_text.entry }
        ensures flags_text { result.flags_text ≡ flags_text.entry }
        ensures options { result.options ≡ options }
    {
        ConstructorParser {
            alloc,
            pattern_text,
            flags_text,
            options,
        }
    }

    /// The tree of the pattern (ECMA-262, 22.2.3.4). A text of two equal quotes is read as `"(?:)"`, and so is one whose value is empty: then spans are those in
    /// that text, also where the argument is shorter. Else they are those in the quoted text, in bytes: of the character or the escape that a unit stands for. With
    /// `standard_strings` a unit may cover two of them, the lead and the trail of a pair, and the line continuations between them, and a node after a line
    /// continuation begins where the unit before it ends.
    pub fn parse(self) -> Result<Pattern, Fault>
        requires pattern { self.options.pattern_span_offset + max (length self.pattern_text.now) 6 < 2 ^ 32 }
        requires flags { self.options.flags_span_offset + flags_length self.flags_text < 2 ^ 32 }

        // Ok on valid input and on no other, with the only tree; else the first refusal, or out of memory.
        ensures { IsParsed (λ p. p) (input_of Constructor self.entry.pattern_text.now self.entry.flags_text self.entry.options) result }
    {
        Ok(self.parse_with_mode()?.0)
    }

    /// The same tree, and the mode that the flags ask for.
    pub fn parse_with_mode(self) -> Result<(Pattern, Mode), Fault>
        requires pattern { self.options.pattern_span_offset + max (length self.pattern_text.now) 6 < 2 ^ 32 }
        requires flags { self.options.flags_span_offset + flags_length self.flags_text < 2 ^ 32 }
        ensures answered { IsParsed (λ it. it.0) (input_of Constructor self.entry.pattern_text.now self.entry.flags_text self.entry.options) result }
        ensures mode { IfOk result (λ it. AsksFor (input_of Constructor self.entry.pattern_text.now self.entry.flags_text self.entry.options) it.1) }
    {
        let ConstructorParser {
            alloc,
            pattern_text,
            flags_text,
            options,
        } = self;
        let form = Form::Constructor;
        let input = Input {
            form,
            pattern_text,
            flags_text,
            options,
        };
        input.parse(alloc)
    }
}
