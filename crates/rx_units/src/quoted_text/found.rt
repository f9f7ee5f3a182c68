ghost use Rattle.std.specs.Prelude.{◌≡◌};
ghost use Rattle.rx_units.specs.Quoted.Elements.{written};
ghost use Rattle.rx_units.specs.Quoted.Found.{seen_front};
ghost use Rattle.rx_units.specs.Quoted.Fronts.{element};

use crate::quoted_text::{Element, Writing};

/// What stands after a backslash. Lengths count characters from the backslash on.
#[derive(Clone, Copy)]
pub(crate) enum EscapeFound {
    Escaped {
        value: u32,
        writing: Writing,
        length: usize,
    },
    /// A digit that is no null.
    Digit,
    /// The text ends.
    Unended,
    InvalidHex {
        length: usize,
    },
    InvalidUnicode {
        length: usize,
    },
    /// The digits after `u{` pass 32 bits.
    TooLarge {
        length: usize,
    },
}

/// What stands at a place. Lengths count characters from there.
#[derive(Clone, Copy)]
pub(crate) enum Found {
    Element { element: Element, length: usize },
    /// The closing quote.
    Closer,
    /// No element.
    Nothing { length: usize },
    /// `${`
    Substitution,
    InvalidHex { length: usize },
    InvalidUnicode { length: usize },
    TooLarge { length: usize },
}

impl Found {
    pub(crate) fn element(value: u32, writing: Writing, length: usize) -> Found
        ensures { seen_front result ≡ element (written value writing) length }
    {
        Found::Element {
            element: Element { value, writing },
            length,
        }
    }
}
