ghost use Rattle.std.specs.Prelude.{◌≡◌, ◌∷◌, ◌++◌, IsTrue, MatchOption};
ghost use Rattle.memchr.specs.Find.{IsFirstByte, is_byte};
ghost use Rattle.rx_base.specs.Ascii as ascii;
ghost use Rattle.rx_run.specs.Lines.{lacks};

use memchr::memchr;

/// What stands before and after the first such byte, or none where it does not occur.
pub fn split_at_byte(byte: u8, bytes: &[u8]) -> Option<(&[u8], &[u8])>
    ensures { MatchOption result
        (IsTrue (lacks byte bytes.now))
        (λ p. (bytes.now ≡ p.0.now ++ byte ∷ p.1.now) × IsTrue (lacks byte p.0.now)) }
{
    let at = memchr(byte, bytes)?;
    Some((&bytes[..at], &bytes[at + 1..]))
}

/// What stands before and after the first TAB, or none where there is no TAB.
pub fn split_at_tab(text: &str) -> Option<(&str, &str)>
    ensures { MatchOption result
        (IsTrue (lacks ascii.tab text.now))
        (λ p. (text.now ≡ p.0.now ++ ascii.tab ∷ p.1.now) × IsTrue (lacks ascii.tab p.0.now)) }
{
    let at = tab_place(text.as_bytes())?;
    Some((&text[..at], &text[at + 1..]))
}

/// Where the first TAB stands. It stands near, so no wide look is taken.
#[inline(always)]
fn tab_place(bytes: &[u8]) -> Option<usize>
    ensures { IsFirstByte (is_byte ascii.tab) bytes.now result }
{
    for (place, byte) in bytes.iter().enumerate() {
        if *byte == b'\t' {
            return Some(place);
        }
    }
    None
}
