//! Whether the members of an object are the fields of a request.
ghost use Rattle.std.specs.Prelude.{◌≡◌, [], map};
ghost use Rattle.json.specs.Value.{value_view};
ghost use Rattle.rx_base.specs.Texts.{is_among};
ghost use Rattle.rx_json_reply.specs.Faults.{is_of_type as is_of_that_type, wrong_item, wrong_member, wrong_members, wrong_value};
ghost use Rattle.rx_json_reply.specs.Held.{fault_in, names, pairs};
ghost use Rattle.rx_json_reply.specs.Wrongs.{first_wrong, other_type, unless};
ghost use Rattle.rx_json_reply.specs.declared.field.Field.TheVariants as Wanted;

use crate::field::Field;
use crate::value::{form_of, offset_of};
use crate::want::can_be_asked;
use crate::wrong::Wrong;
use json::Value;

/// Finds the first member that is wrong.
pub fn check_members<'a>(members: &[(&'a str, Value<'a>)]) -> Result<(), Wrong<'a>>
    ensures { fault_in result ≡ wrong_members [] (pairs members.now) }
{
    for index in 0..members.len() {
        check_member(&members[..index], &members[index])?;
    }
    Ok(())
}

fn check_member<'a>(
    before: &[(&'a str, Value<'a>)],
    member: &(&'a str, Value<'a>),
) -> Result<(), Wrong<'a>>
    ensures { fault_in result ≡ wrong_member (names before.now) (member.now.0.now, value_view member.now.1) }
{
    let Some(field) = Field::from_name(member.0) else {
        return Err(Wrong::UnknownField(member.0));
    };
    if has_name(before, member.0) {
        return Err(Wrong::Twice(field));
    }
    check_value(field, &member.1)
}

fn has_name(members: &[(&str, Value<'_>)], name: &str) -> bool
    ensures { result ≡ is_among (names members.now) name.now }
{
    members.iter().any(|member| member.0 == name)
}

fn check_value<'a>(field: Field, value: &Value<'a>) -> Result<(), Wrong<'a>>
    ensures { fault_in result ≡ wrong_value field (value_view value.now) }
{
    match field {
        Field::Want => check_want(value),
        _ => check_type(field, value),
    }
}

fn check_want<'a>(value: &Value<'a>) -> Result<(), Wrong<'a>>
    ensures { fault_in result ≡ wrong_value Wanted.Want (value_view value.now) }
{
    if let Value::Array(items) = value {
        check_items(items.as_slice())
    } else {
        Err(Wrong::OtherType(Field::Want))
    }
}

fn check_type<'a>(field: Field, value: &Value<'a>) -> Result<(), Wrong<'a>>
    ensures { fault_in result ≡ unless (is_of_that_type field (value_view value.now)) (other_type field) }
{
    if is_of_type(field, value) {
        Ok(())
    } else {
        Err(Wrong::OtherType(field))
    }
}

fn is_of_type(field: Field, value: &Value<'_>) -> bool
    ensures { result ≡ is_of_that_type field (value_view value.now) }
{
    match field {
        Field::Id => true,
        Field::Pattern | Field::Flags => value.as_str().is_some(),
        Field::Form => form_of(value).is_some(),
        Field::Offset | Field::FlagsOffset => offset_of(value).is_some(),
        Field::DuplicateNames | Field::BufferBoundaries | Field::StandardStrings => {
            value.as_bool().is_some()
        }
        Field::Want => matches!(value, Value::Array(_)),
    }
}

/// Finds the first item of `want` that is wrong.
fn check_items<'a>(items: &[Value<'a>]) -> Result<(), Wrong<'a>>
    ensures { fault_in result ≡ first_wrong (map (λ it. wrong_item (value_view it)) items.now) }
{
    for item in items {
        let Some(name) = item.as_str() else {
            return Err(Wrong::OtherItem);
        };
        if !can_be_asked(name) {
            return Err(Wrong::UnknownItem(name));
        }
    }
    Ok(())
}
