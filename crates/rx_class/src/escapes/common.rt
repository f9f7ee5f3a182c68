ghost use Rattle.std.specs.Prelude.{◌≡◌, ◌==◌, ◌&&◌, IfSome, if◌then◌else◌};
ghost use Rattle.rx_base.specs.Ascii as ascii;
ghost use Rattle.rx_base.specs.Characters.{is_lead};
ghost use Rattle.rx_ast.specs.declared.leaf.CharacterKind.TheVariants as kind;
ghost use Rattle.rx_units.specs.Units.{values};
ghost use Rattle.rx_model.specs.FirstPass.Marks.{starts};
ghost use Rattle.rx_class.specs.EscapeReading.CommonEscapes.{IsCommonEscape};

use crate::sets::front::begins_with;
use rx_ast::CharacterKind;
use rx_base::is_lead_surrogate;
use rx_scan::four_hex_digits;
use rx_tables::map_short_escape;
use rx_units::{Ahead, Unit};

/// An escape of a character that is read alike in classes and outside them, whatever groups and names the pattern has.
#[derive(Clone, Copy)]
pub struct CommonEscape {
    /// How it is written.
    pub kind: CharacterKind,
    /// The character that it stands for.
    pub value: u32,
    /// How many units spell it after the backslash: the first, and its hexadecimal digits.
    pub length: usize,
}

/// The escape of a character (CharacterEscape of ECMA-262, 22.2.1) that the units after a backslash begin with, where it is a ControlEscape, a
/// SyntaxCharacter or `/`, or `u` and four hexadecimal digits that begin no pair. `None` does not mean that no escape stands there.
///
/// It counts no step. The caller that takes the escape counts one for each of its digits.
#[inline(always)]
pub fn common_escape_at<U: Unit>(units: &Ahead<'_, U>, unicode_mode: bool) -> Option<CommonEscape>
    ensures { IfSome result (λ it. IsCommonEscape unicode_mode units.now it) }
{
    let Some((first, following)) = units.split_first() else {
        return None;
    };
    if first == 'u' as u32 {
        let value = four_hex_digits(&following)?;
        if may_begin_pair(value, &following.from(4), unicode_mode) {
            return None;
        }
        return Some(CommonEscape {
            kind: CharacterKind::UnicodeEscape,
            value,
            length: 5,
        });
    }
    let value = map_short_escape(first)?;
    Some(CommonEscape {
        kind: short_kind(first, value),
        value,
        length: 1,
    })
}

/// Whether an escape of this value may be the first of two that are one code point, by the units after it.
#[inline(always)]
fn may_begin_pair<U: Unit>(value: u32, following: &Ahead<'_, U>, unicode_mode: bool) -> bool
    ensures { result ≡ ((unicode_mode && is_lead value) && starts ascii.backslash (values following.now)) }
{
    unicode_mode && is_lead_surrogate(value) && begins_with(following, '\\')
}

/// The kind of an escape of one unit: it stands for itself, or is a ControlEscape.
#[inline(always)]
fn short_kind(letter: u32, value: u32) -> CharacterKind
    ensures { result ≡ (if value == letter then kind.Identifier else kind.SingleEscape) }
{
    if value == letter {
        CharacterKind::Identifier
    } else {
        CharacterKind::SingleEscape
    }
}
