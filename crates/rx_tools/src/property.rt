ghost use Rattle.std.specs.Prelude.{◌≡◌};
ghost use Rattle.std.specs.Str.{chars};
ghost use Rattle.rx_base.specs.Writing.{Written};
ghost use Rattle.rx_ast.specs.Texts.{property_opener as opener, property_text};
ghost use Rattle.rx_tools.specs.Utf8.{utf8};

use crate::write::write_pieces;
use rx_ast::UnicodePropertyEscape;
use rx_ast::parts::{is_general_category, property_opener};
use rx_base::{Failed, TextSink};

/// What the escape begins with, lent for as long as its name is.
fn opener_of(it: &UnicodePropertyEscape) -> &str
    ensures { chars result.now ≡ opener it.now.negative }
{
    property_opener(it.negative)
}

/// Writes a property, where a value of `General_Category` stands alone.
#[tactic(auto, using(crate::proofs::Pieces::in_pieces))]
pub fn write_property<W: TextSink>(sink: &mut W, it: &UnicodePropertyEscape) -> Result<(), Failed>
    ensures { Written W.taken W.fixed W.faults sink.old sink.new result (utf8 (property_text it.now.negative it.now.name it.now.value)) }
{
    match &it.value {
        None => write_pieces(sink, &[opener_of(it), it.name.as_str(), "}"]),
        Some(value) if is_general_category(&it.name) => {
            write_pieces(sink, &[opener_of(it), value.as_str(), "}"])
        }
        Some(value) => write_pieces(
            sink,
            &[opener_of(it), it.name.as_str(), "=", value.as_str(), "}"],
        ),
    }
}
