ghost use Rattle.std.specs.Prelude.{◌≡◌, ◌++◌, OnOk};
ghost use Rattle.rx_rewrite_reply.specs.Replies.{flags_among, flags_left, stays};

use rx_base::{List, OutOfMemory};
use rx_reply::has_flag;
use rx_rewrite::Rewrites;

/// Adds the flags that stay.
pub fn add_flags(bytes: &mut List<u8>, letters: &str, what: Rewrites) -> Result<(), OutOfMemory>
    ensures { OnOk result (bytes.new ≡ bytes.old ++ flags_left what letters.now) }
{
    add_those(bytes, letters, what, b"dgimsuvy")
}

/// Adds those of some flags that are there and stay.
fn add_those(
    bytes: &mut List<u8>,
    letters: &str,
    what: Rewrites,
    flags: &[u8],
) -> Result<(), OutOfMemory>
    ensures { OnOk result (bytes.new ≡ bytes.old ++ flags_among what letters.now flags.now) }
{
    for flag in flags {
        let is_left = stays(what, *flag) && has_flag(letters.as_bytes(), *flag);
        if is_left {
            bytes.push(*flag)?;
        }
    }
    Ok(())
}

/// Whether a flag stays, where it is there.
fn stays(what: Rewrites, flag: u8) -> bool
    ensures { result ≡ stays what flag }
{
    match flag {
        b'm' => !what.multiline,
        b's' => !what.dot_all,
        _ => true,
    }
}
