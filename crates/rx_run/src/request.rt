ghost use Rattle.std.specs.Prelude.{◌≡◌, ◌≤◌, MatchOption, IfSome, length};
ghost use Rattle.std.specs.Str.{chars};
ghost use Rattle.rx_model.specs.declared.form.Form.{Form as Forms};
ghost use Rattle.rx_parser.specs.Inputs.{flags_chars, flags_length};
ghost use Rattle.rx_run.specs.Reply.{flags_bytes};
ghost use Rattle.rx_run.specs.Request.{IsRequest, form_field, flags_text};
ghost use Rattle.rx_run.specs.Request.{Request as Asked};

use crate::pieces::split_at_tab;
use rx_tools::Form;

/// The longest line that is read, in bytes.
pub const LINE_LIMIT: usize = 1048576;

/// What a line asks for: a pattern of a form, under flags, if there is a flags text.
#[derive(Clone, Copy)]
pub struct Request<'a> {
    pub form: Form,
    pub flags: Option<&'a str>,
    pub text: &'a str,
}

/// The form that a field stands for, or none where the field is neither `L` nor `C`.
fn form(field: &str) -> Option<Form>
    ensures { MatchOption result
        ((form : Forms) → ¬ (field.now ≡ form_field form))
        (λ form. field.now ≡ form_field form) }
{
    match field {
        "L" => Some(Form::Literal),
        "C" => Some(Form::Constructor),
        _ => None,
    }
}

/// An empty field stands for no flags text.
fn flags(field: &str) -> Option<&str>
    ensures value { flags_chars result ≡ flags_text field.now }
    ensures within { flags_length result ≤ length field.now }
{
    if field.is_empty() { None } else { Some(field) }
}

impl<'a> Request<'a> {
    /// The field of the flags, which is empty where there is no flags text.
    pub fn flags_field(&self) -> &'a str
        ensures { result.now ≡ flags_bytes (flags_chars self.now.flags) }
    {
        self.flags.unwrap_or("")
    }

    /// The field of the pattern.
    pub fn text_field(&self) -> &'a str
        ensures { result.now ≡ self.now.text.now }
    {
        self.text
    }

    /// What a line asks for, or none where the line is longer than the limit, or is no UTF-8, or has fewer than two TABs, or its
    /// first field is neither `L` nor `C`.
    pub fn parse(line: &'a [u8]) -> Option<Request<'a>>
        ensures asked { MatchOption result
            ((asked : Asked) → ¬ IsRequest line.now asked)
            (λ it. IsRequest line.now (record { form = it.form; flags = flags_chars it.flags; text = chars it.text.now })) }
        ensures flags { IfSome result (λ it. flags_length it.flags ≤ 1048576) }
        ensures text { IfSome result (λ it. length it.text.now ≤ 1048576) }
    {
        if line.len() > LINE_LIMIT {
            return None;
        }
        let Ok(line) = str::from_utf8(line) else {
            return None;
        };
        let (form_field, rest) = split_at_tab(line)?;
        let form = form(form_field)?;
        let (flags_field, text) = split_at_tab(rest)?;
        Some(Request {
            form,
            flags: flags(flags_field),
            text,
        })
    }
}
