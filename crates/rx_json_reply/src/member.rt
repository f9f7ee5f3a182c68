ghost use Rattle.std.specs.Prelude.{◌∷◌, IfSome, OnOk};
ghost use Rattle.json.specs.Token.{begin_object};
ghost use Rattle.json.specs.Tree.{HasNumbers};
ghost use Rattle.json.specs.Value.{value_view};
ghost use Rattle.rx_json.specs.Adding.{Adds};
ghost use Rattle.rx_json.specs.Values.{field_tokens};
ghost use Rattle.rx_json_reply.specs.Begun.{id_json};
ghost use Rattle.rx_json_reply.specs.Parts.{begun};

use json::{Value, Writer};
use rx_base::OutOfMemory;
use rx_json::write_text;

/// Writes what each reply begins with.
pub fn begin_reply(
    writer: &mut Writer,
    id: Option<&Value<'_>>,
    status: &str,
) -> Result<(), OutOfMemory>
    requires { IfSome id (λ id. HasNumbers (value_view id.now)) }
    ensures { OnOk result (Adds writer.old writer.new (begin_object ∷ field_tokens (begun (id_json id.entry) status.now))) }
{
    writer.begin_object()?;
    writer.key("id")?;
    match id {
        Some(id) => writer.value(id)?,
        None => writer.null()?,
    }
    write_text(writer, "status", status)
}
