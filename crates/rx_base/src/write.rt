ghost use Rattle.rx_base.specs.Writing.{Written};

use crate::{Failed, Sink};

/// Writes the whole piece, in as many writes as it takes. After `Failed` only its front was taken, of which at least one byte is
/// missing.
pub fn write_all<K: Sink>(sink: &mut K, piece: &[u8]) -> Result<(), Failed>
    ensures { Written K.taken K.fixed K.faults sink.old sink.new result piece.now }
{
    let mut rest = piece;
    while !rest.is_empty() {
        let count = sink.write(rest)?;
        rest = &rest[count..];
    }
    Ok(())
}
