ghost use Rattle.std.specs.Prelude.{◌<◌, ◌^◌, max, length, IfErr, IfOk};
ghost use Rattle.std.specs.Str.{chars};
ghost use Rattle.rx_model.specs.Reading.Headline.{IsFaultOf};
ghost use Rattle.rx_parser.specs.Inputs.{flags_chars, flags_length};
ghost use Rattle.rx_linter_example.specs.Notes.{HasNotes, literal};

use crate::note::Note;
use crate::visitor::Notes;
use rx_base::{Fault, List};
use rx_tools::visit::walk_pattern_in;
use rx_tools::{Form, Options, read_pattern};
use std::alloc::Global;

/// Reads the text between a literal's slashes, under its flags, and tells of each lookbehind and each named group, in the order in which they begin. A
/// deep pattern needs no deep stack. Fails where the pattern is refused, or where there is not enough memory.
pub fn notes(alloc: Global, pattern: &str, flags: Option<&str>) -> Result<List<Note>, Fault>
    requires pattern { max (length pattern.now) 4 < 2 ^ 32 }
    requires flags { flags_length flags < 2 ^ 32 }
    ensures ok { IfOk result (HasNotes (literal (chars pattern.now) (flags_chars flags.entry))) }
    ensures err { IfErr result (IsFaultOf (literal (chars pattern.now) (flags_chars flags.entry))) }
{
    let (tree, _mode) = read_pattern(alloc, Form::Literal, pattern, flags, Options::default())?;
    let mut visitor = Notes::new(alloc);
    walk_pattern_in(alloc, &mut visitor, &tree)?;
    if visitor.is_short {
        return Err(Fault::OutOfMemory);
    }
    Ok(visitor.notes)
}
