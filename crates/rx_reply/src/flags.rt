ghost use Rattle.std.specs.Prelude.{◌≡◌};
ghost use Rattle.rx_base.specs.Flags.{holds};
ghost use Rattle.rx_model.specs.Inputs.Environment.{is_unicode};
ghost use Rattle.rx_reply.specs.Flags.{match_flags};

use rx_model::Mode;
use rx_trace::MatchFlags;

/// Whether a flag stands among the letters of a request's flags.
pub fn has_flag(letters: &[u8], flag: u8) -> bool
    ensures { result ≡ holds letters.now flag }
{
    letters.contains(&flag)
}

/// How a pattern that is read in this mode, with these flags, is matched (RegExpInitialize of ECMA-262, 22.2.3.3).
pub fn match_flags(mode: Mode, letters: &str) -> MatchFlags
    ensures flags { result ≡ match_flags mode letters.now }
    ensures unicode_mode { result.unicode_mode ≡ is_unicode mode }
{
    let bytes = letters.as_bytes();
    MatchFlags {
        ignore_case: has_flag(bytes, b'i'),
        multiline: has_flag(bytes, b'm'),
        dot_all: has_flag(bytes, b's'),
        unicode_mode: mode.is_unicode(),
    }
}
