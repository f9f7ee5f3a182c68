ghost use Rattle.std.specs.Prelude.{◌≡◌, ◌++◌, OnOk};

use itoa::{Buffer, Integer};
use rx_base::{List, OutOfMemory};

/// Adds a number in decimal.
pub fn add_decimal<I: Integer>(bytes: &mut List<u8>, n: I) -> Result<(), OutOfMemory>
    ensures { OnOk result (bytes.new ≡ bytes.old ++ I.text n) }
{
    let mut buffer = Buffer::new();
    bytes.extend_from_slice(buffer.format(n).as_bytes())
}
