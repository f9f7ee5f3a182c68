ghost use Rattle.std.specs.Prelude.{◌≡◌, ◌∷◌, ◌++◌, codes};
ghost use Rattle.std.specs.Fmt.{decimal};
ghost use Rattle.std.specs.Str.{chars};
ghost use Rattle.rx_base.specs.Writing.{Written};
ghost use Rattle.rx_tools.specs.Utf8.{utf8};
ghost use Rattle.rx_ast.specs.Texts.{lazy_text as lazy, quantifier_text};

use crate::write::{write_char, write_pieces};
use itoa::Buffer;
use rx_ast::parts::lazy_text;
use rx_base::{Failed, TextSink};

/// The number in decimal.
pub fn decimal_text(buffer: &mut Buffer, n: u64) -> &str
    ensures { chars result.now ≡ decimal n }
{
    buffer.format(n)
}

/// Writes the first that fits of `*`, `+`, `?`, `{n}`, `{n,m}`, `{n,}`, and `?` after it unless greedy.
#[inline]
#[tactic(auto, using(crate::proofs::Pieces::in_pieces))]
pub fn write_quantifier<W: TextSink>(
    sink: &mut W,
    min: u64,
    max: Option<u64>,
    greedy: bool,
) -> Result<(), Failed>
    ensures { Written W.taken W.fixed W.faults sink.old sink.new result (utf8 (quantifier_text min max greedy)) }
{
    match max {
        None if min == 0 => write_sign(sink, '*', greedy),
        None if min == 1 => write_sign(sink, '+', greedy),
        None => write_at_least(sink, min, greedy),
        Some(max) if min == 0 && max == 1 => write_sign(sink, '?', greedy),
        Some(max) if min == max => write_exactly(sink, min, greedy),
        Some(max) => write_between(sink, min, max, greedy),
    }
}

/// Writes `?` unless greedy.
#[inline(always)]
fn write_lazy<W: TextSink>(sink: &mut W, greedy: bool) -> Result<(), Failed>
    ensures { Written W.taken W.fixed W.faults sink.old sink.new result (utf8 (lazy greedy)) }
{
    if greedy {
        Ok(())
    } else {
        write_char(sink, '?')
    }
}

/// Writes a sign, and `?` after it unless greedy.
#[inline(always)]
fn write_sign<W: TextSink>(sink: &mut W, sign: char, greedy: bool) -> Result<(), Failed>
    ensures { Written W.taken W.fixed W.faults sink.old sink.new result (utf8 (sign ∷ lazy greedy)) }
{
    write_char(sink, sign)?;
    write_lazy(sink, greedy)
}

/// Writes `{n}`, and `?` after it unless greedy.
#[tactic(auto, using(crate::proofs::Pieces::in_pieces))]
fn write_exactly<W: TextSink>(sink: &mut W, n: u64, greedy: bool) -> Result<(), Failed>
    ensures { Written W.taken W.fixed W.faults sink.old sink.new result (utf8 (codes "{" ++ (decimal n ++ (codes "}" ++ lazy greedy)))) }
{
    let mut buffer = Buffer::new();
    write_pieces(
        sink,
        &["{", decimal_text(&mut buffer, n), "}", lazy_text(greedy)],
    )
}

/// Writes `{n,}`, and `?` after it unless greedy.
#[tactic(auto, using(crate::proofs::Pieces::in_pieces))]
fn write_at_least<W: TextSink>(sink: &mut W, n: u64, greedy: bool) -> Result<(), Failed>
    ensures { Written W.taken W.fixed W.faults sink.old sink.new result (utf8 (codes "{" ++ (decimal n ++ (codes ",}" ++ lazy greedy)))) }
{
    let mut buffer = Buffer::new();
    write_pieces(
        sink,
        &["{", decimal_text(&mut buffer, n), ",}", lazy_text(greedy)],
    )
}

/// Writes `{n,m}`, and `?` after it unless greedy.
#[tactic(auto, using(crate::proofs::Pieces::in_pieces))]
fn write_between<W: TextSink>(sink: &mut W, min: u64, max: u64, greedy: bool) -> Result<(), Failed>
    ensures { Written W.taken W.fixed W.faults sink.old sink.new result (utf8 (codes "{" ++ (decimal min ++ (codes "," ++ (decimal max ++ (codes "}" ++ lazy greedy)))))) }
{
    let mut first = Buffer::new();
    let mut second = Buffer::new();
    write_pieces(
        sink,
        &[
            "{",
            decimal_text(&mut first, min),
            ",",
            decimal_text(&mut second, max),
            "}",
            lazy_text(greedy),
        ],
    )
}
