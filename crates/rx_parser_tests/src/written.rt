//! How rows ask for long texts, and the flags and the pattern that a row asks.
ghost use Rattle.std.specs.Prelude.{◌≤◌, IfOk, IfSome, length};
ghost use Rattle.rx_parser.specs.Inputs.{flags_length};

use std::fmt;
use std::test::Fail;

/// A part of a row as the text that it stands for: `‹9 ab#›` stands for nine times `ab`, each with its number after it, from 0 on.
#[derive(Clone, Copy)]
pub struct Written<'a>(pub &'a str);

impl fmt::Display for Written<'_> {
    fn fmt<W: fmt::Write>(&self, f: &mut fmt::Formatter<W>) -> fmt::Result {
        for piece in self.0.split('‹') {
            match piece.split_once('›') {
                Some((repeated, after)) => {
                    write_repeated(f, repeated)?;
                    f.write_str(after)?;
                }
                None => f.write_str(piece)?,
            }
        }
        Ok(())
    }
}

/// Writes what stands after the first blank as often as the number before it says.
fn write_repeated<W: fmt::Write>(f: &mut fmt::Formatter<W>, repeated: &str) -> fmt::Result {
    let (times, what) = repeated.split_once(' ').ok_or(fmt::Error)?;
    let (front, after) = what.split_once('#').unwrap_or((what, ""));
    let numbered = front.len() < what.len();
    for number in 0..times.parse::<usize>().unwrap_or(0) {
        f.write_str(front)?;
        if numbered {
            write!(f, "{number}{after}")?;
        }
    }
    Ok(())
}

/// The flags, which are absent where `-` stands, and after a blank the pattern.
pub fn flags_and_pattern(asked: &str) -> Result<(Option<&str>, &str), Fail>
    ensures flags { IfOk result (λ it. flags_length it.0 ≤ 100000) }
    ensures pattern { IfOk result (λ it. length it.1.now ≤ 100000) }
{
    let (flags, pattern) = asked.split_once(' ').ok_or("no blank")?;
    if flags.len().max(pattern.len()) > 100000 {
        return Err(Fail::new("a longer text"));
    }
    Ok((if flags == "-" { None } else { Some(flags) }, pattern))
}
