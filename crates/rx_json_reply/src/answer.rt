ghost use Rattle.std.specs.Prelude.{◌≡◌, ◌∷◌, [], IfOk, IfSome, List, OnOk, codes, ℕ};
ghost use Rattle.json.specs.Token.{begin_object};
ghost use Rattle.json.specs.Tree.{HasNumbers};
ghost use Rattle.json.specs.Value.{value_view};
ghost use Rattle.rx_ast.specs.Kinds.{order, pattern as pattern_kind};
ghost use Rattle.rx_ast.specs.Tree.{mirror};
ghost use Rattle.rx_parser.specs.Inputs.{input_of};
ghost use Rattle.rx_refusal.specs.declared.field.Field.{Field as Side};
ghost use Rattle.rx_refusal.specs.Fields.{IsFieldOf};
ghost use Rattle.rx_json.specs.Adding.{Adds};
ghost use Rattle.rx_json.specs.Groups.{groups_fields};
ghost use Rattle.rx_json.specs.Located.{located};
ghost use Rattle.rx_json.specs.Trees.{tree_json};
ghost use Rattle.rx_json.specs.Values.{Field as Member, field_tokens, object_of};
ghost use Rattle.rx_json_reply.specs.Answers.{IsAnswer};
ghost use Rattle.rx_json_reply.specs.Begun.{id_json};
ghost use Rattle.rx_json_reply.specs.Held.{Holds, IsWant};
ghost use Rattle.rx_json_reply.specs.Parts.{display_fields, mode_name, only_if, placed_fields, read_fields, refused_fields, spelling_fields};
ghost use Rattle.rx_json_reply.specs.Requests.{Asked};

use crate::member::begin_reply;
use crate::request::Request;
use crate::unsupported::write_unsupported;
use json::{Value, Writer};
use rx_ast::Pattern;
use rx_base::{Diagnostic, Fault, OutOfMemory};
use rx_json::{write_characters, write_groups, write_refusal, write_text, write_tree};
use rx_places::Places;
use rx_refusal::{field_of, offset_in, text_in};
use rx_tools::{Mode, canonical_text, display_text, read_pattern};
use std::alloc::Global;

/// Writes the reply to a request but for its closing brace, and says whether its pattern is read.
pub fn write_answer(
    alloc: Global,
    writer: &mut Writer,
    id: Option<&Value<'_>>,
    request: &Request<'_>,
) -> Result<bool, OutOfMemory>
    requires { IfSome id (λ id. HasNumbers (value_view id.now)) }
    ensures { (asked : Asked) → Holds request.now asked → IfOk result (λ ok. (fields : List Member)
        × IsAnswer (id_json id.entry) asked (object_of fields) ok × Adds writer.old writer.new (begin_object ∷ field_tokens fields)) }
{
    match read_pattern(
        alloc,
        request.form,
        request.pattern,
        request.flags,
        request.options,
    ) {
        Ok((pattern, mode)) => {
            begin_reply(writer, id, "ok")?;
            write_read(alloc, writer, request, &pattern, mode)?;
            Ok(true)
        }
        Err(Fault::Diagnostic(refusal)) => {
            begin_reply(writer, id, "refused")?;
            write_refused(alloc, writer, request, &refusal)?;
            Ok(false)
        }
        Err(Fault::OutOfMemory) => Err(OutOfMemory),
    }
}

/// Writes what a request wants to know of its pattern.
fn write_read(
    alloc: Global,
    writer: &mut Writer,
    request: &Request<'_>,
    pattern: &Pattern,
    mode: Mode,
) -> Result<(), OutOfMemory>
    ensures { (names : List (List ℕ)) → IsWant request.now.want names → OnOk result (Adds writer.old writer.new
        (field_tokens (read_fields (input_of request.now.form request.now.pattern.now request.now.flags request.now.options) names mode pattern.now))) }
{
    write_text(writer, "mode", mode_name(mode))?;
    write_spelling(alloc, writer, request, pattern, mode)?;
    write_placed(alloc, writer, request, pattern)?;
    write_unsupported(alloc, writer, request, pattern)?;
    write_display(alloc, writer, request, pattern)
}

/// Writes the spelling where it is asked for.
fn write_spelling(
    alloc: Global,
    writer: &mut Writer,
    request: &Request<'_>,
    pattern: &Pattern,
    mode: Mode,
) -> Result<(), OutOfMemory>
    ensures { OnOk result (Adds writer.old writer.new (field_tokens (only_if request.now.want.spelling (spelling_fields mode pattern.now)))) }
{
    if !request.want.spelling {
        return Ok(());
    }
    let text = canonical_text(alloc, pattern, mode)?;
    write_characters(writer, "spelling", &text)
}

/// Writes what has places, where it is asked for.
fn write_placed(
    alloc: Global,
    writer: &mut Writer,
    request: &Request<'_>,
    pattern: &Pattern,
) -> Result<(), OutOfMemory>
    ensures { OnOk result (Adds writer.old writer.new (field_tokens (placed_fields (input_of request.now.form request.now.pattern.now request.now.flags request.now.options)
        request.now.want.groups request.now.want.tree pattern.now))) }
{
    if !request.want.groups && !request.want.tree {
        return Ok(());
    }
    let places = Places::new(alloc, request.pattern, request.options.pattern_span_offset)?;
    write_asked_groups(alloc, writer, request, &places, pattern)?;
    write_asked_tree(alloc, writer, request, &places, pattern)
}

/// Writes the groups where they are asked for.
fn write_asked_groups(
    alloc: Global,
    writer: &mut Writer,
    request: &Request<'_>,
    places: &Places<'_>,
    pattern: &Pattern,
) -> Result<(), OutOfMemory>
    ensures { OnOk result (Adds writer.old writer.new (field_tokens (only_if request.now.want.groups (groups_fields (located places.now) (order (pattern_kind (mirror pattern.now))))))) }
{
    if !request.want.groups {
        return Ok(());
    }
    write_groups(alloc, writer, places, pattern)
}

/// Writes the tree where it is asked for.
fn write_asked_tree(
    alloc: Global,
    writer: &mut Writer,
    request: &Request<'_>,
    places: &Places<'_>,
    pattern: &Pattern,
) -> Result<(), OutOfMemory>
    ensures { OnOk result (Adds writer.old writer.new (field_tokens (only_if request.now.want.tree ((codes "tree", tree_json (located places.now) (pattern_kind (mirror pattern.now))) ∷ [])))) }
{
    if !request.want.tree {
        return Ok(());
    }
    writer.key("tree")?;
    write_tree(alloc, writer, places, pattern)
}

/// Writes the text that `Display` writes, where it is asked for.
fn write_display(
    alloc: Global,
    writer: &mut Writer,
    request: &Request<'_>,
    pattern: &Pattern,
) -> Result<(), OutOfMemory>
    ensures { OnOk result (Adds writer.old writer.new (field_tokens (only_if request.now.want.display (display_fields pattern.now)))) }
{
    if !request.want.display {
        return Ok(());
    }
    let text = display_text(alloc, pattern)?;
    write_characters(writer, "display", &text)
}

/// Writes why a request's flags or pattern are refused.
fn write_refused(
    alloc: Global,
    writer: &mut Writer,
    request: &Request<'_>,
    refusal: &Diagnostic,
) -> Result<(), OutOfMemory>
    ensures { let input = input_of request.now.form request.now.pattern.now request.now.flags request.now.options in
        OnOk result ((side : Side) × IsFieldOf input refusal.now side × Adds writer.old writer.new (field_tokens (refused_fields input side refusal.now))) }
{
    let input = request.input();
    let field = field_of(alloc, &input, refusal)?;
    let text = text_in(&input, field);
    let places = Places::new(alloc, text, offset_in(&input, field))?;
    write_refusal(alloc, writer, &places, input.form, field, refusal)
}

fn mode_name(mode: Mode) -> &'static str
    ensures { result.now ≡ mode_name mode }
{
    match mode {
        Mode::Legacy => "legacy",
        Mode::Unicode => "unicode",
        Mode::Sets => "sets",
    }
}
