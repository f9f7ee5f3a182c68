ghost use Rattle.std.specs.Prelude.{◌≡◌, ◌++◌, OnOk};
ghost use Rattle.rx_run.specs.Spans.{second_text, spans_text};

use rx_base::{Diagnostic, List, OutOfMemory, Span};
use rx_reply::add_span;

/// Adds the spans of a refusal. After an error a part of them may stand at the end.
pub fn add_spans(bytes: &mut List<u8>, cause: &Diagnostic) -> Result<(), OutOfMemory>
    ensures { OnOk result (bytes.new ≡ bytes.old ++ spans_text cause.now) }
{
    add_span(bytes, cause.first_span())?;
    add_second_span(bytes, cause.second_span())
}

fn add_second_span(bytes: &mut List<u8>, second: Option<Span>) -> Result<(), OutOfMemory>
    ensures { OnOk result (bytes.new ≡ bytes.old ++ second_text second) }
{
    let Some(span) = second else {
        return Ok(());
    };
    bytes.extend_from_slice(b",")?;
    add_span(bytes, span)
}
