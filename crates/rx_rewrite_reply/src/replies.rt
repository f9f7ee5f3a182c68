ghost use Rattle.std.specs.Prelude.{◌≡◌, ◌++◌, true, ℕ, List as Sequence, OnOk, IfOk, codes};
ghost use Rattle.rx_ast.specs.Tree.{mirror};
ghost use Rattle.rx_reply.specs.Places.{span_text};
ghost use Rattle.rx_model.specs.Inputs.Environment.{is_unicode};
ghost use Rattle.rx_model.specs.Trees.Early.{IsEarly};
ghost use Rattle.rx_rewrite.specs.Answers.{rules_of};
ghost use Rattle.rx_rewrite.specs.Wanted.{rewrites_of};
ghost use Rattle.rx_reply.specs.Added.{IsAdded};
ghost use Rattle.rx_rewrite_reply.specs.Replies.{IsRewriteReply, answer_reply, pattern_reply, kept_among};

use crate::flags::add_flags;
use rx_ast::Pattern;
use rx_base::{List, OutOfMemory, Span};
use rx_model::Mode;
use rx_reply::{add_span, match_flags};
use rx_rewrite::{RewriteFault, Wanted, modifiers_left, rewrite};
use rx_tools::append_canonical;
use std::alloc::Global;

/// How a pattern was read, and what is to go from it.
#[derive(Clone, Copy)]
pub struct Rewriting<'a> {
    /// The flags of its line.
    pub letters: &'a str,

    /// The mode that the flags ask for.
    pub mode: Mode,

    /// Whether two groups may have one name, and whether buffer boundaries are read.
    pub rules: (bool, bool),

    pub wanted: Wanted,
}

/// Adds the reply with the plainer pattern of a pattern that is read in this way; or why there is none. After an error a part of the reply may stand at
/// the end.
pub fn add_rewritten(
    alloc: Global,
    bytes: &mut List<u8>,
    pattern: &Pattern,
    rewriting: Rewriting<'_>,
) -> Result<(), OutOfMemory>
    requires { IsEarly (rules_of rewriting.rules) pattern.now }
    ensures { OnOk result ((reply : Sequence ℕ) × IsRewriteReply rewriting.entry.wanted rewriting.entry.letters.now rewriting.entry.mode (mirror pattern.now) reply
        × (bytes.new ≡ bytes.old ++ reply)) }
{
    let Rewriting {
        letters,
        mode,
        rules,
        wanted,
    } = rewriting;
    let left = refused(alloc, pattern, wanted)?;
    if let Some(span) = left {
        return add_unsupported(bytes, span);
    }
    let flags = match_flags(mode, letters);
    let answer = rewrite(
        alloc,
        pattern,
        modes_of(mode),
        rules,
        flags,
        wanted.rewrites(),
    );
    add_answer(alloc, bytes, answer, rewriting)
}

/// Whether a mode is a unicode mode, and whether it is sets mode.
fn modes_of(mode: Mode) -> (bool, bool)
    ensures unicode { result.0 ≡ is_unicode mode }
    ensures sets { result.1 ≡ true → result.0 ≡ true }
{
    match mode {
        Mode::Legacy => (false, false),
        Mode::Unicode => (true, false),
        Mode::Sets => (true, true),
    }
}

/// The span of modifiers that do not go, where modifiers are named among what is to go.
fn refused(alloc: Global, pattern: &Pattern, wanted: Wanted) -> Result<Option<Span>, OutOfMemory>
    ensures { IfOk result (λ it. it ≡ kept_among wanted (mirror pattern.now)) }
{
    match wanted {
        Wanted::All => Ok(None),
        Wanted::Listed(what) => {
            if what.pattern_modifiers {
                modifiers_left(alloc, pattern)
            } else {
                Ok(None)
            }
        }
    }
}

fn add_answer(
    alloc: Global,
    bytes: &mut List<u8>,
    answer: Result<Pattern, RewriteFault>,
    rewriting: Rewriting<'_>,
) -> Result<(), OutOfMemory>
    ensures { OnOk result (IsAdded (answer_reply (rewrites_of rewriting.entry.wanted) rewriting.entry.letters.now rewriting.entry.mode answer) bytes.old bytes.new) }
{
    match answer {
        Ok(pattern) => add_pattern(alloc, bytes, &pattern, rewriting),
        Err(RewriteFault::OutOfMemory) => Err(OutOfMemory),
        Err(RewriteFault::NameUsedTwice { first, second }) => add_twice(bytes, first, second),
    }
}

fn add_pattern(
    alloc: Global,
    bytes: &mut List<u8>,
    pattern: &Pattern,
    rewriting: Rewriting<'_>,
) -> Result<(), OutOfMemory>
    ensures { OnOk result (bytes.new ≡ bytes.old ++ pattern_reply (rewrites_of rewriting.entry.wanted) rewriting.entry.letters.now rewriting.entry.mode pattern.now) }
{
    bytes.extend_from_slice(b"ok\t")?;
    add_flags(bytes, rewriting.letters, rewriting.wanted.rewrites())?;
    bytes.extend_from_slice(b"\t")?;
    append_canonical(alloc, bytes, pattern, rewriting.mode)?;
    bytes.extend_from_slice(b"\n")
}

fn add_twice(bytes: &mut List<u8>, first: Span, second: Span) -> Result<(), OutOfMemory>
    ensures { OnOk result (bytes.new ≡ bytes.old ++ (codes "err\tname_used_twice\t" ++ span_text first ++ codes "," ++ span_text second ++ codes "\n")) }
{
    bytes.extend_from_slice(b"err\tname_used_twice\t")?;
    add_span(bytes, first)?;
    bytes.extend_from_slice(b",")?;
    add_span(bytes, second)?;
    bytes.extend_from_slice(b"\n")
}

fn add_unsupported(bytes: &mut List<u8>, span: Span) -> Result<(), OutOfMemory>
    ensures { OnOk result (bytes.new ≡ bytes.old ++ (codes "err\tunsupported\t" ++ span_text span ++ codes "\n")) }
{
    bytes.extend_from_slice(b"err\tunsupported\t")?;
    add_span(bytes, span)?;
    bytes.extend_from_slice(b"\n")
}
