ghost use Rattle.std.specs.Prelude.{◌≡◌};
ghost use Rattle.rx_visit.specs.Flags.{is_supported_flag, is_unsupported_flag, has_refused, are_refused_flags};

use rx_base::is_flag;

/// Flags that are not supported.
#[derive(Debug, Default, Drop)]
pub struct RegexUnsupportedFlags {
    /// `y`
    pub sticky: bool,

    /// `u`
    pub unicode: bool,

    /// `s`
    pub dot_all: bool,

    /// `d`
    pub match_indices: bool,

    /// `v`
    pub unicode_sets: bool,
}

/// Whether a byte is no flag, is one that is not supported, or occurs twice, or `u` and `v` both occur.
pub fn has_unsupported_regular_expression_flags(
    flags: &str,
    unsupported: &RegexUnsupportedFlags,
) -> bool
    ensures { result ≡ are_refused_flags unsupported.now flags.now }
{
    let bytes = flags.as_bytes();
    has_refused(bytes, unsupported) || (bytes.contains(&b'u') && bytes.contains(&b'v'))
}

/// Whether a byte is not supported, or occurs twice.
fn has_refused(bytes: &[u8], unsupported: &RegexUnsupportedFlags) -> bool
    ensures { result ≡ has_refused unsupported.now bytes.now }
{
    let mut rest = bytes;
    while let [byte, following @ ..] = rest {
        if !is_supported_flag(*byte, unsupported) || following.contains(byte) {
            return true;
        }
        rest = following;
    }
    false
}

fn is_supported_flag(flag: u8, unsupported: &RegexUnsupportedFlags) -> bool
    ensures { result ≡ is_supported_flag unsupported.now flag }
{
    is_flag(u32::from(flag)) && !is_unsupported_flag(flag, unsupported)
}

fn is_unsupported_flag(flag: u8, unsupported: &RegexUnsupportedFlags) -> bool
    ensures { result ≡ is_unsupported_flag unsupported.now flag }
{
    match flag {
        b'd' => unsupported.match_indices,
        b's' => unsupported.dot_all,
        b'u' => unsupported.unicode,
        b'v' => unsupported.unicode_sets,
        b'y' => unsupported.sticky,
        _ => false,
    }
}
