ghost use Rattle.std.specs.Prelude.{◌+◌, ◌<◌, ◌^◌, max, length};
ghost use Rattle.rx_model.specs.Reading.Headline.{IsAnswered};
ghost use Rattle.rx_parser.specs.Inputs.{flags_length, input_of, stand_in_length};
ghost use Rattle.rx_tools.specs.Spelled.{read_of, spelling_answer};

use crate::printing::canonical_text;
use crate::{Canonical, Options};
use rx_ast::Pattern;
use rx_base::Fault;
use rx_model::{Form, Mode};
use rx_parser::Input;
use std::alloc::Global;

/// Reads a pattern to its tree, and says in which mode it was read. The flags text is absent where there are no flags; in the form of a constructor both
/// texts have their quotes.
pub fn read_pattern(
    alloc: Global,
    form: Form,
    pattern_text: &str,
    flags_text: Option<&str>,
    options: Options,
) -> Result<(Pattern, Mode), Fault>
    requires pattern { options.pattern_span_offset + max (length pattern_text.now) (stand_in_length form) < 2 ^ 32 }
    requires flags { options.flags_span_offset + flags_length flags_text < 2 ^ 32 }

    // Whether the flags are right or wrong: Ok on valid input and on no other, with the only tree, spans aside, that the text reads as in the mode that the
    // flags ask for, and with that mode; else the first refusal, or out of memory. The spelling of the tree is read back.
    ensures headline { IsAnswered read_of (input_of form pattern_text.now flags_text.entry options) result }
{
    let input = Input {
        form,
        pattern_text,
        flags_text,
        options,
    };
    input.parse(alloc)
}

/// Reads a pattern and spells it canonically. The flags text is absent where there are no flags; in the form of a constructor both texts have their quotes.
pub fn canonical(
    alloc: Global,
    form: Form,
    pattern_text: &str,
    flags_text: Option<&str>,
    options: Options,
) -> Result<Canonical, Fault>
    requires pattern { options.pattern_span_offset + max (length pattern_text.now) (stand_in_length form) < 2 ^ 32 }
    requires flags { options.flags_span_offset + flags_length flags_text < 2 ^ 32 }

    // Whether the flags are right or wrong: Ok on valid input and on no other, with the only tree and its canonical spelling; else the first refusal, or out of memory.
    ensures headline { IsAnswered spelling_answer (input_of form pattern_text.now flags_text.entry options) result }
{
    let (pattern, mode) = read_pattern(alloc, form, pattern_text, flags_text, options)?;
    let text = canonical_text(alloc, &pattern, mode)?;
    Ok(Canonical {
        pattern,
        mode,
        text,
    })
}
