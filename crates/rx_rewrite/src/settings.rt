ghost use Rattle.std.specs.Prelude.{◌≡◌};
ghost use Rattle.rx_ast.specs.Tree.{Node};
ghost use Rattle.rx_rewrite.specs.Plain.{chosen_term};
ghost use Rattle.rx_rewrite.specs.Rewriting.{by_setting, modifiers_kept as modifiers_kept_of};

use rx_ast::{Modifier, Modifiers};
use rx_trace::Settings;

/// The settings that a term is read under, before the rewriting and after it.
#[derive(Clone, Copy)]
pub struct SettingsPair {
    pub old: Settings,
    pub new: Settings,
}

/// What is done about a term whose meaning depends on a setting.
#[derive(Clone, Copy)]
pub enum Replacement {
    /// It stays as it is.
    Keep,
    /// It is replaced by what it stands for where the setting is on.
    On,
    /// It is replaced by what it stands for where the setting is off.
    Off,
}

/// What is done about a term, by its setting before and after. Where the setting stays on, the term is replaced only if that is asked for.
// Why: docs/DECISIONS.md, 90.
pub fn replacement_for(asked: bool, old: bool, new: bool) -> Replacement
    ensures { (same on off : Node) → chosen_term result same on off ≡ by_setting asked old new same on off }
{
    match (old, new) {
        (true, true) if asked => Replacement::On,
        (true, true) => Replacement::Keep,
        (true, false) => Replacement::On,
        (false, true) => Replacement::Off,
        (false, false) => Replacement::Keep,
    }
}

/// The modifiers with `i` alone, or none where it is on neither side.
pub fn modifiers_kept(modifiers: &Option<Modifiers>) -> Option<Modifiers>
    ensures { result ≡ modifiers_kept_of modifiers.now }
{
    match modifiers {
        None => None,
        Some(modifiers) => {
            let enabling = modifiers.enabling & Modifier::I;
            let disabling = modifiers.disabling & Modifier::I;
            if enabling.is_empty() && disabling.is_empty() {
                return None;
            }
            Some(Modifiers {
                span: modifiers.span,
                enabling,
                disabling,
            })
        }
    }
}

/// The same modifiers.
pub fn modifiers_copied(modifiers: &Option<Modifiers>) -> Option<Modifiers>
    ensures { result ≡ modifiers.now }
{
    match modifiers {
        None => None,
        Some(modifiers) => Some(Modifiers {
            span: modifiers.span,
            enabling: modifiers.enabling,
            disabling: modifiers.disabling,
        }),
    }
}
