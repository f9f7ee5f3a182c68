//! What the values of fields are read as.
ghost use Rattle.std.specs.Prelude.{◌≡◌, option_map};
ghost use Rattle.json.specs.Value.{value_view};
ghost use Rattle.rx_json_reply.specs.Faults.{form_of as form_read, offset_of as offset_read};
ghost use Rattle.rx_json_reply.specs.Requests.{form_at as form_asked, offset_at as offset_asked, text_at as text_asked, truth_at as truth_asked};

use crate::field::Field;
use json::Value;
use rx_tools::Form;

pub fn form_of(value: &Value<'_>) -> Option<Form>
    ensures { result ≡ form_read (value_view value.now) }
{
    match value.as_str()? {
        "literal" => Some(Form::Literal),
        "constructor" => Some(Form::Constructor),
        _ => None,
    }
}

/// A number below 2^32 that is written in digits alone.
pub fn offset_of(value: &Value<'_>) -> Option<u32>
    ensures { result ≡ offset_read (value_view value.now) }
{
    let digits = value.as_number()?;
    if digits.as_bytes().iter().all(|byte| byte.is_ascii_digit()) {
        digits.parse::<u32>().ok()
    } else {
        None
    }
}

/// The text of a field of a request, if it has one.
pub fn text_at<'a>(request: &Value<'a>, field: Field) -> Option<&'a str>
    ensures { option_map (λ text. text.now) result ≡ text_asked field (value_view request.now) }
{
    request.get(field.name())?.as_str()
}

pub fn form_at(request: &Value<'_>) -> Form
    ensures { result ≡ form_asked (value_view request.now) }
{
    match request.get(Field::Form.name()) {
        Some(value) => form_of(value).unwrap_or(Form::Literal),
        None => Form::Literal,
    }
}

pub fn offset_at(request: &Value<'_>, field: Field) -> u32
    ensures { result ≡ offset_asked field (value_view request.now) }
{
    match request.get(field.name()) {
        Some(value) => offset_of(value).unwrap_or(0),
        None => 0,
    }
}

pub fn truth_at(request: &Value<'_>, field: Field, usual: bool) -> bool
    ensures { result ≡ truth_asked field usual (value_view request.now) }
{
    match request.get(field.name()) {
        Some(value) => value.as_bool().unwrap_or(usual),
        None => usual,
    }
}
