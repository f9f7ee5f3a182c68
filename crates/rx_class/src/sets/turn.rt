ghost use Rattle.rx_class.specs.SetReading.FrontSeen.{seen_front};
ghost use Rattle.rx_class.specs.SetReading.HeldMirror.{mirror_held};
ghost use Rattle.rx_class.specs.SetReading.Turns.{IsTurn};

use crate::sets::character::SetCharacter;
use crate::sets::front::SetFront;
use crate::sets::held::Held;
use rx_ast::CharacterClassEscapeKind;
use rx_base::SetOperator;

/// What is done with what stands next in a bracket of a class with `v`. A `Held` is what the bracket holds after it.
#[derive(Clone, Copy)]
pub enum Turn {
    /// The bracket closes.
    Close,
    Operator {
        operator: SetOperator,
        after: Held,
    },

    /// A nested bracket opens.
    Open {
        negative: bool,
    },
    Strings(Held),
    Character {
        found: SetCharacter,
        after: Held,
    },
    Escape {
        kind: CharacterClassEscapeKind,
        after: Held,
    },
    Property(Held),

    /// What stands next may not follow.
    Nothing,
}

/// What is done with what stands next in a bracket that holds this.
pub fn next_turn(front: SetFront, held: Held) -> Turn
    ensures { IsTurn (mirror_held held) (seen_front front) result }
{
    match (front, held.with_operand()) {
        (SetFront::Closer, _) if held.is_whole() => Turn::Close,
        (SetFront::Operator(operator), _) => match held.with_operator(operator) {
            Some(after) => Turn::Operator { operator, after },
            None => Turn::Nothing,
        },
        (SetFront::Bracket { negative }, Some(_)) => Turn::Open { negative },
        (SetFront::Strings, Some(after)) => Turn::Strings(after),
        (SetFront::Character(found), Some(after)) => Turn::Character { found, after },
        (SetFront::Escape(kind), Some(after)) => Turn::Escape { kind, after },
        (SetFront::Property, Some(after)) => Turn::Property(after),
        _ => Turn::Nothing,
    }
}
