ghost use Rattle.std.specs.Prelude.{◌≡◌};
ghost use Rattle.rx_json_reply.specs.Fields.{field_name, field_of, wanted_of};

/// The fields of a request.
#[derive(Clone, Copy, Debug, PartialEq, Eq)]
pub enum Field {
    Id,
    Pattern,
    Form,
    Flags,
    Offset,
    FlagsOffset,
    DuplicateNames,
    BufferBoundaries,
    StandardStrings,
    Want,
}

impl Field {
    /// The field of this name, or none.
    pub fn from_name(name: &str) -> Option<Field>
        ensures { result ≡ field_of name.now }
    {
        match name {
            "id" => Some(Field::Id),
            "pattern" => Some(Field::Pattern),
            "form" => Some(Field::Form),
            "flags" => Some(Field::Flags),
            "offset" => Some(Field::Offset),
            "flagsOffset" => Some(Field::FlagsOffset),
            "duplicateNames" => Some(Field::DuplicateNames),
            "bufferBoundaries" => Some(Field::BufferBoundaries),
            "standardStrings" => Some(Field::StandardStrings),
            "want" => Some(Field::Want),
            _ => None,
        }
    }

    /// What it is called in a request.
    pub fn name(self) -> &'static str
        ensures { result.now ≡ field_name self }
    {
        match self {
            Field::Id => "id",
            Field::Pattern => "pattern",
            Field::Form => "form",
            Field::Flags => "flags",
            Field::Offset => "offset",
            Field::FlagsOffset => "flagsOffset",
            Field::DuplicateNames => "duplicateNames",
            Field::BufferBoundaries => "bufferBoundaries",
            Field::StandardStrings => "standardStrings",
            Field::Want => "want",
        }
    }

    /// What a value of this field is not, where it is wrong.
    pub fn wanted(self) -> &'static str
        ensures { result.now ≡ wanted_of self }
    {
        match self {
            Field::Id => "a value",
            Field::Pattern | Field::Flags => "a string",
            Field::Form => "\"literal\" or \"constructor\"",
            Field::Offset | Field::FlagsOffset => "a whole number below 4294967296",
            Field::DuplicateNames | Field::BufferBoundaries | Field::StandardStrings => {
                "true or false"
            }
            Field::Want => "a list",
        }
    }
}
