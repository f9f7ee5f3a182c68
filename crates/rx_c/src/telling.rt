//! What is told of a refusal.
ghost use Rattle.std.specs.Prelude.{◌≡◌, ◌++◌, ◌∷◌, [], IfOk, IsUtf8, encode_utf8_all};
ghost use Rattle.std.specs.String.{string_bytes};
ghost use Rattle.rx_base.specs.Diagnostic.{name_of};
ghost use Rattle.rx_base.specs.DiagnosticMessage.{message_of};
ghost use Rattle.rx_records.specs.Ranges.{ranges_at};
ghost use Rattle.rx_refusal.specs.Helps.{help_at};
ghost use Rattle.rx_refusal.specs.Kinds.{kind_of};
ghost use Rattle.rx_refusal.specs.Values.{texts_of};
ghost use Rattle.rx_parser.specs.Texts.{seen_input};
ghost use Rattle.rx_c.specs.Told.{ShowsCause, ShowsRefusal, all_bytes, each_bytes, optional_with_nul};

use crate::codes::field_code;
use crate::question::Question;
use crate::reading::Reading;
use crate::refusal::Refusal;
use crate::text::{leak_list, leak_text, optional_with_nul, with_nul};
use crate::units::{optional_in_units, range_in_units};
use rx_base::{Diagnostic, OutOfMemory};
use rx_places::Places;
use rx_records::{Range, Records};
use rx_refusal::{Field, field_of, help_for, kind_of, max_of, offset_in, text_in, texts_of};
use rx_tools::Form;
use std::alloc::Global;

/// The texts that are told of a refusal, each in a block of its own.
#[derive(Drop)]
struct Words {
    name: Vec<u8>,
    kind: Vec<u8>,
    message: Vec<u8>,
    help: Vec<u8>,
}

/// The texts that a refusal holds, one after the other, and where each of them stands.
#[derive(Drop)]
struct Values {
    texts: String,
    ranges: Vec<Range>,
}

/// What is told of a refusal. All memory is taken before the first block is given up.
pub fn tell_refusal<'a>(
    alloc: Global,
    it: &Question<'_>,
    cause: &Diagnostic,
) -> Result<Reading<'a>, OutOfMemory>
    ensures told { IfOk result (ShowsRefusal it.now.wants (seen_input it.now.input) cause.now) }
    ensures utf8 { IfOk result (λ out. IsUtf8 out.texts.now) }
{
    let field = field_of(alloc, &it.input, cause)?;
    let Values { texts, ranges } = values_of(alloc, cause)?;
    let refusal = refusal_in(alloc, it, field, cause, ranges)?;
    Ok(Reading {
        texts: leak_text(texts),
        refusal,
        ..Reading::empty()
    })
}

/// The same but for the texts, where the spans lie in this field.
fn refusal_in<'a>(
    alloc: Global,
    it: &Question<'_>,
    field: Field,
    cause: &Diagnostic,
    values: Vec<Range>,
) -> Result<Refusal<'a>, OutOfMemory>
    requires { values.items ≡ ranges_at 0 (each_bytes (texts_of cause.now)) }
    ensures { IfOk result (ShowsCause it.now.wants.utf16 (seen_input it.now.input) field cause.now) }
{
    let text = text_in(&it.input, field);
    let offset = offset_in(&it.input, field);
    let words = words_of(alloc, it.input.form, text, offset, cause)?;
    let places = Places::new(alloc, text, offset)?;
    let utf16 = it.wants.utf16;
    let second = cause.second_span();
    Ok(Refusal {
        name: leak_list(words.name),
        kind: leak_list(words.kind),
        message: leak_list(words.message),
        help: leak_list(words.help),
        values: leak_list(values),
        field: field_code(field),
        span_count: if second.is_some() { 2 } else { 1 },
        max: max_of(cause).unwrap_or(0),
        spare: 0,
        first: range_in_units(utf16, cause.first_span(), &places),
        second: optional_in_units(utf16, second, &places),
    })
}

fn words_of(
    alloc: Global,
    form: Form,
    text: &str,
    offset: u32,
    cause: &Diagnostic,
) -> Result<Words, OutOfMemory>
    ensures name { IfOk result (λ words. words.name.items ≡ name_of cause.now ++ 0 ∷ []) }
    ensures kind { IfOk result (λ words. words.kind.items ≡ optional_with_nul (kind_of cause.now)) }
    ensures message { IfOk result (λ words. words.message.items ≡ encode_utf8_all (message_of cause.now) ++ 0 ∷ []) }
    ensures help { IfOk result (λ words. words.help.items ≡ optional_with_nul (help_at form text.now offset cause.now)) }
{
    let message = format!(in alloc; "{cause}")?;
    Ok(Words {
        name: with_nul(alloc, cause.name().as_bytes())?,
        kind: optional_with_nul(alloc, kind_of(cause))?,
        message: with_nul(alloc, message.as_bytes())?,
        help: optional_with_nul(alloc, help_for(form, text, offset, cause))?,
    })
}

fn values_of(alloc: Global, cause: &Diagnostic) -> Result<Values, OutOfMemory>
    ensures texts { IfOk result (λ values. string_bytes values.texts ≡ all_bytes (texts_of cause.now)) }
    ensures ranges { IfOk result (λ values. values.ranges.items ≡ ranges_at 0 (each_bytes (texts_of cause.now))) }
{
    let texts = texts_of(alloc, cause)?;
    let mut made = Records::with_room(alloc, 0)?;
    let mut ranges = Vec::new(alloc);
    for text in texts.as_slice() {
        let range = made.add_text(text)?;
        ranges.push(range)?;
    }
    Ok(Values {
        texts: made.texts,
        ranges,
    })
}
