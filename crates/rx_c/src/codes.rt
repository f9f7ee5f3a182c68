//! The numbers that stand for what C has no type for.
ghost use Rattle.std.specs.Prelude.{◌≡◌};
ghost use Rattle.rx_c.specs.Codes.{field_code as field_number, form_by as form_of_number, mode_code as mode_number};

use rx_refusal::Field;
use rx_tools::{Form, Mode};

pub fn mode_code(mode: Mode) -> u32
    ensures { result ≡ mode_number mode }
{
    match mode {
        Mode::Legacy => 0,
        Mode::Unicode => 1,
        Mode::Sets => 2,
    }
}

pub fn field_code(field: Field) -> u32
    ensures { result ≡ field_number field }
{
    match field {
        Field::Pattern => 0,
        Field::Flags => 1,
    }
}

/// The form that a number stands for, or none.
pub fn form_by(form: u32) -> Option<Form>
    ensures { result ≡ form_of_number form }
{
    match form {
        0 => Some(Form::Literal),
        1 => Some(Form::Constructor),
        _ => None,
    }
}
