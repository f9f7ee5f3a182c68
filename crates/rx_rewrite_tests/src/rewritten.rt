//! How a pattern of a row is read, rewritten and spelled.
ghost use Rattle.std.specs.Prelude.{◌≡◌, true, IfSome};
ghost use Rattle.rx_model.specs.Trees.Early.{IsEarly};
ghost use Rattle.rx_rewrite.specs.Answers.{rules_of};

use rx_ast::Pattern;
use rx_rewrite::{RewriteFault, Rewrites, rewrite};
use rx_rows::{Call, text_of};
use rx_tools::{Form, Mode, Options, canonical_text, read_pattern};
use rx_trace::MatchFlags;
use std::alloc::Global;
use std::test::Fail;

/// Asked are the flags and the pattern, with ` ~ ` between; and by their letters what is to go, `n`, `s`, `m` and `p`, if not all. The answer is the spelling of
/// the pattern that is rewritten. It must stay when it is rewritten once more, under the flags that are left; else both are answered.
#[derive(Clone, Copy)]
pub struct RewriteCall;

impl Call for RewriteCall {
    fn answer(&self, alloc: Global, asked: &str) -> Result<String, Fail> {
        Ok(rewritten_twice(alloc, asked).ok_or(asked)?)
    }
}

/// The flags of a pattern, and what of it is to go.
#[derive(Clone, Copy)]
struct Question<'a> {
    flags: &'a str,
    match_flags: MatchFlags,
    what: Rewrites,
}

impl<'a> Question<'a> {
    fn of(flags: &'a str, what: &str) -> Question<'a> {
        Question {
            flags,
            match_flags: MatchFlags {
                ignore_case: flags.contains('i'),
                multiline: flags.contains('m'),
                dot_all: flags.contains('s'),
                unicode_mode: false,
            },
            what: Rewrites {
                named_capture_groups: what.contains('n'),
                dot_all: what.contains('s'),
                multiline: what.contains('m'),
                pattern_modifiers: what.contains('p'),
            },
        }
    }

    /// The same of a pattern that is rewritten.
    fn again(self) -> Question<'a> {
        let Question {
            match_flags,
            what,
            ..
        } = self;
        Question {
            match_flags: MatchFlags {
                multiline: match_flags.multiline & !what.multiline,
                dot_all: match_flags.dot_all & !what.dot_all,
                ..match_flags
            },
            ..self
        }
    }
}

/// A part of a row, or what stands for it where the row has no such part.
fn part<'a>(row: &'a str, at: usize, absent: &'a str) -> &'a str {
    row.split(" ~ ").nth(at).unwrap_or(absent)
}

/// The answer, or none where the pattern is not read or there is no memory.
fn rewritten_twice(alloc: Global, asked: &str) -> Option<String> {
    let row = text_of(alloc, asked).ok()??;
    let question = Question::of(part(&row, 0, ""), part(&row, 2, "nsmp"));
    let once = rewritten_text(alloc, part(&row, 1, ""), question)?;
    if once.starts_with("twice") {
        return Some(once);
    }
    stays(alloc, once, question.again())
}

/// The text of a pattern, and if it is rewritten to another, that as well.
fn stays(alloc: Global, text: String, question: Question<'_>) -> Option<String> {
    let again = rewritten_text(alloc, &text, question)?;
    if again.as_str() == text.as_str() {
        return Some(text);
    }
    format!(in alloc; "{text}, and then {again}").ok()
}

/// A pattern that is read, with no very long text, and its mode.
pub fn read(alloc: Global, pattern: &str, flags: &str) -> Option<(Pattern, Mode)>
    ensures { IfSome result (λ it. IsEarly (rules_of (true, true)) it.0) }
{
    if pattern.len().max(flags.len()) > 10_000_000 {
        return None;
    }
    let options = Options::default();
    match read_pattern(alloc, Form::Literal, pattern, Some(flags), options) {
        Ok(read) => Some(read),
        Err(_) => None,
    }
}

/// Whether a mode is a unicode mode, and whether it is sets mode.
fn modes_of(mode: Mode) -> (bool, bool)
    ensures { result.1 ≡ true → result.0 ≡ true }
{
    match mode {
        Mode::Legacy => (false, false),
        Mode::Unicode => (true, false),
        Mode::Sets => (true, true),
    }
}

/// The spelling of a pattern that is read and rewritten; or the spans of two groups of one name.
fn rewritten_text(alloc: Global, pattern: &str, question: Question<'_>) -> Option<String> {
    let (read, mode) = read(alloc, pattern, question.flags)?;
    let modes = modes_of(mode);
    let flags = MatchFlags {
        unicode_mode: modes.0,
        ..question.match_flags
    };
    let answer = rewrite(alloc, &read, modes, (true, true), flags, question.what);
    told(alloc, answer, mode)
}

fn told(alloc: Global, answer: Result<Pattern, RewriteFault>, mode: Mode) -> Option<String> {
    match answer {
        Ok(pattern) => {
            let text = canonical_text(alloc, &pattern, mode).ok()?;
            String::from_str(alloc, text.as_str()).ok()
        }
        Err(RewriteFault::NameUsedTwice { first, second }) => format!(in alloc;
            "twice {}..{} {}..{}",
            first.start, first.end, second.start, second.end
        )
        .ok(),
        Err(RewriteFault::OutOfMemory) => None,
    }
}
