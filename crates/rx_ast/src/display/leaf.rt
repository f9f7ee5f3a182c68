ghost use Rattle.std.specs.Prelude.{Some};
ghost use Rattle.std.specs.Str.{encode_utf8_all};
ghost use Rattle.rx_ast.specs.Kinds as kinds;
ghost use Rattle.rx_ast.specs.Shown.{shown};
ghost use Rattle.rx_ast.specs.Texts.{boundary_text as boundary, class_escape_text as escape, look_sign as sign, modifiers_text};

use crate::display::parts::{
    boundary_text, class_escape_text, dash, is_general_category, letters, look_sign,
    property_opener, write_text,
};
use crate::leaf::{
    BoundaryAssertion, BoundaryAssertionKind, CharacterClassEscape, CharacterClassEscapeKind, Dot,
    IndexedReference, LookAroundAssertionKind, Modifiers, NamedReference, UnicodePropertyEscape,
};
use std::fmt;

impl fmt::Display for BoundaryAssertionKind {
    ghost output = { λ it. Some (encode_utf8_all (boundary it)) };

    fn fmt<W: fmt::Write>(&self, f: &mut fmt::Formatter<W>) -> fmt::Result {
        write_text(f, boundary_text(*self))
    }
}

impl fmt::Display for CharacterClassEscapeKind {
    ghost output = { λ it. Some (encode_utf8_all (escape it)) };

    fn fmt<W: fmt::Write>(&self, f: &mut fmt::Formatter<W>) -> fmt::Result {
        write_text(f, class_escape_text(*self))
    }
}

/// What it begins with after its parenthesis.
impl fmt::Display for LookAroundAssertionKind {
    ghost output = { λ it. Some (encode_utf8_all (sign it)) };

    fn fmt<W: fmt::Write>(&self, f: &mut fmt::Formatter<W>) -> fmt::Result {
        write_text(f, look_sign(*self))
    }
}

/// The letters of those that are enabled, and after `-` of those that are disabled.
impl fmt::Display for Modifiers {
    ghost output = { λ it. Some (encode_utf8_all (modifiers_text it)) };

    fn fmt<W: fmt::Write>(&self, f: &mut fmt::Formatter<W>) -> fmt::Result {
        write_text(f, letters(self.enabling))?;
        write_text(f, dash(self.disabling))?;
        write_text(f, letters(self.disabling))
    }
}

impl fmt::Display for BoundaryAssertion {
    ghost output = { λ it. Some (encode_utf8_all (shown (kinds.boundary_assertion it))) };

    fn fmt<W: fmt::Write>(&self, f: &mut fmt::Formatter<W>) -> fmt::Result {
        write_text(f, boundary_text(self.kind))
    }
}

impl fmt::Display for Dot {
    ghost output = { λ it. Some (encode_utf8_all (shown (kinds.dot it))) };

    fn fmt<W: fmt::Write>(&self, f: &mut fmt::Formatter<W>) -> fmt::Result {
        f.write_str(".")
    }
}

impl fmt::Display for CharacterClassEscape {
    ghost output = { λ it. Some (encode_utf8_all (shown (kinds.class_escape it))) };

    fn fmt<W: fmt::Write>(&self, f: &mut fmt::Formatter<W>) -> fmt::Result {
        write_text(f, class_escape_text(self.kind))
    }
}

impl fmt::Display for UnicodePropertyEscape {
    ghost output = { λ it. Some (encode_utf8_all (shown (kinds.property_escape it))) };

    fn fmt<W: fmt::Write>(&self, f: &mut fmt::Formatter<W>) -> fmt::Result {
        let opener = property_opener(self.negative);
        let name = self.name.as_str();
        match &self.value {
            None => write!(f, "{opener}{name}}}"),
            Some(value) if is_general_category(&self.name) => {
                write!(f, "{opener}{}}}", value.as_str())
            }
            Some(value) => write!(f, "{opener}{name}={}}}", value.as_str()),
        }
    }
}

impl fmt::Display for IndexedReference {
    ghost output = { λ it. Some (encode_utf8_all (shown (kinds.indexed_reference it))) };

    fn fmt<W: fmt::Write>(&self, f: &mut fmt::Formatter<W>) -> fmt::Result {
        let index = self.index;
        write!(f, "\\{index}")
    }
}

impl fmt::Display for NamedReference {
    ghost output = { λ it. Some (encode_utf8_all (shown (kinds.named_reference it))) };

    fn fmt<W: fmt::Write>(&self, f: &mut fmt::Formatter<W>) -> fmt::Result {
        write!(f, "\\k<{}>", self.name.as_str())
    }
}
