ghost use Rattle.std.specs.Prelude.{◌≡◌, ◌==◌, None, MatchOption, bit_and, not};
ghost use Rattle.rx_trace.specs.Answers.{settings as settings_of_flags};
ghost use Rattle.rx_trace.specs.Matching.{update_settings, switch_setting};
ghost use Rattle.rx_trace.specs.Supported.{unsupported_modifiers as unsupported_by};

use crate::answer::MatchFlags;
use rx_ast::{Modifier, Modifiers};
use rx_base::Span;

/// The settings that the modifiers of a group change: what `^`, `$` and `.` stand for.
// Why: docs/DECISIONS.md, 103.
#[derive(Clone, Copy, Debug)]
pub struct Settings {
    pub multiline: bool,
    pub dot_all: bool,
}

/// The settings that a pattern begins with.
pub fn settings_at_start(flags: MatchFlags) -> Settings
    ensures { result ≡ settings_of_flags flags }
{
    Settings {
        multiline: flags.multiline,
        dot_all: flags.dot_all,
    }
}

/// Whether a bit is set.
fn has_bit(modifier: Modifier, bit: Modifier) -> bool
    ensures { result ≡ not (bit_and modifier.0 bit.0 == 0) }
{
    modifier.intersects(bit)
}

/// A setting after a modifier on either side.
fn is_set_after(modifiers: &Modifiers, bit: Modifier, was: bool) -> bool
    ensures { result ≡ switch_setting (bit_and modifiers.now.enabling.0 bit.0) (bit_and modifiers.now.disabling.0 bit.0) was }
{
    let on = has_bit(modifiers.enabling, bit);
    let off = has_bit(modifiers.disabling, bit);
    if off {
        return false;
    }
    if on {
        return true;
    }
    was
}

/// The settings in a group with these modifiers (UpdateModifiers, ECMA-262, 22.2.2.7.4).
pub fn settings_after(modifiers: &Option<Modifiers>, settings: Settings) -> Settings
    ensures { result ≡ update_settings modifiers.now settings }
{
    match modifiers {
        None => settings,
        Some(modifiers) => Settings {
            multiline: is_set_after(modifiers, Modifier::M, settings.multiline),
            dot_all: is_set_after(modifiers, Modifier::S, settings.dot_all),
        },
    }
}

/// The span of modifiers that turn the ignoring of case on or off.
pub fn unsupported_modifiers(modifiers: &Option<Modifiers>) -> Option<Span>
    ensures { MatchOption modifiers.now (result ≡ None) (λ m. result ≡ unsupported_by m) }
{
    match modifiers {
        None => None,
        Some(it) => {
            let on = has_bit(it.enabling, Modifier::I);
            let off = has_bit(it.disabling, Modifier::I);
            if on || off { Some(it.span) } else { None }
        }
    }
}
