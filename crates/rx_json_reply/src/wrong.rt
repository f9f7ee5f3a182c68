ghost use Rattle.std.specs.Prelude.{◌≡◌, ◌++◌, IfOk, string_bytes};
ghost use Rattle.rx_json_reply.specs.Wrongs.{why_text, wrong_of};

use crate::field::Field;
use rx_base::OutOfMemory;
use std::alloc::Global;

/// Why a line is no request.
#[derive(Clone, Copy)]
pub enum Wrong<'a> {
    LongLine,
    NotUtf8,
    NotJson,
    NotObject,
    UnknownField(&'a str),
    Twice(Field),
    OtherType(Field),

    /// An item of `want` is no string.
    OtherItem,

    /// An item of `want` is not among its strings.
    UnknownItem(&'a str),
    Missing,

    /// Places would not fit 32 bits.
    TooLarge(Field),

    /// Features of a constructor.
    Features,
}

impl Wrong<'_> {
    /// What is wrong, in one line.
    pub fn text(&self, alloc: Global) -> Result<String, OutOfMemory>
        ensures { IfOk result (λ text. string_bytes text ≡ why_text (wrong_of self.now)) }
    {
        let (before, name, after, wanted) = self.parts();
        let mut text = String::from_str(alloc, before)?;
        text.push_str(name)?;
        text.push_str(after)?;
        text.push_str(wanted)?;
        Ok(text)
    }

    /// A name with what stands before and after it, and what a value was to be.
    fn parts(&self) -> (&'static str, &str, &'static str, &'static str)
        ensures { why_text (wrong_of self.now) ≡ result.0.now ++ result.1.now ++ result.2.now ++ result.3.now }
    {
        match self {
            Wrong::LongLine => ("the line is longer than 1048576 bytes", "", "", ""),
            Wrong::NotUtf8 => ("the line is not UTF-8", "", "", ""),
            Wrong::NotJson => (
                "the line is not JSON, or it nests more than 128 deep",
                "",
                "",
                "",
            ),
            Wrong::NotObject => ("the line is not an object", "", "", ""),
            Wrong::UnknownField(name) => ("unknown field `", name, "`", ""),
            Wrong::Twice(field) => ("field `", field.name(), "` stands twice", ""),
            Wrong::OtherType(field) => ("field `", field.name(), "` is not ", field.wanted()),
            Wrong::OtherItem => ("field `want` has an item that is not a string", "", "", ""),
            Wrong::UnknownItem(name) => ("field `want` has an unknown string `", name, "`", ""),
            Wrong::Missing => ("field `pattern` is missing", "", "", ""),
            Wrong::TooLarge(field) => ("field `", field.name(), "` is too large", ""),
            Wrong::Features => ("features are told of literals alone", "", "", ""),
        }
    }
}
