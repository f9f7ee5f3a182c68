ghost use Rattle.std.specs.Prelude.{◌↔◌, ◌≤◌, IsTrue, MatchOption, IfSome, length};
ghost use Rattle.std.specs.Str.{chars};
ghost use Rattle.rx_parser.specs.Inputs.{flags_chars, flags_length};
ghost use Rattle.rx_run.specs.Reply.{IsAnswerable, IsAsked};
ghost use Rattle.rx_run.specs.Request.{Request as Asked};

use crate::request::Request;
use rx_command::Answering;
use rx_tools::Form;

/// Whether requests of this form are answered.
// Why: docs/DECISIONS.md, 75.
fn takes(answering: &Answering<'_>, form: Form) -> bool
    ensures { IsTrue result ↔ IsAnswerable answering.now form }
{
    match answering {
        Answering::Canonical | Answering::Display => true,
        Answering::Support(_)
        | Answering::Match { .. }
        | Answering::Steps { .. }
        | Answering::Paint
        | Answering::PaintColor
        | Answering::Lint
        | Answering::Rewrite(_) => matches!(form, Form::Literal),
    }
}

/// What a line asks for, or none where it asks for nothing that is answered.
pub fn request_in<'a>(answering: &Answering<'_>, line: &'a [u8]) -> Option<Request<'a>>
    ensures asked { MatchOption result
        ((asked : Asked) → ¬ IsAsked answering.now line.now asked)
        (λ it. IsAsked answering.now line.now (record { form = it.form; flags = flags_chars it.flags; text = chars it.text.now })) }
    ensures flags { IfSome result (λ it. flags_length it.flags ≤ 1048576) }
    ensures text { IfSome result (λ it. length it.text.now ≤ 1048576) }
{
    let request = Request::parse(line)?;
    if !takes(answering, request.form) {
        return None;
    }
    Some(request)
}
