ghost use Rattle.std.specs.Prelude.{◌≡◌, ◌≤◌, ◌++◌, ◌&&◌, ℕ, List as Sequence, [], true, false, OnOk, codes, drop, encode_utf8_all, length};
ghost use Rattle.std.specs.Str.{chars};
ghost use Rattle.rx_base.specs.Writing.{Written};
ghost use Rattle.rx_ast.specs.Forget.{bare};
ghost use Rattle.rx_ast.specs.Kinds.{order, pattern as pattern_kind};
ghost use Rattle.rx_ast.specs.Tree.{mirror};
ghost use Rattle.rx_visit.specs.Flags.{are_refused_flags};
ghost use Rattle.rx_ast.specs.Shown.{pattern_shown};
ghost use Rattle.rx_model.specs.Spelling.Spelling.{spelling};
ghost use Rattle.rx_parser.specs.Inputs.{flags_chars};
ghost use Rattle.rx_match_reply.specs.Replies.{IsMatchReply, IsTicksReply};
ghost use Rattle.rx_ast.specs.Parts.{IsNestedPattern};
ghost use Rattle.rx_model.specs.Inputs.Texts.{literal_text};
ghost use Rattle.rx_paint.specs.Runs.{pattern_tokens};
ghost use Rattle.rx_paint_reply.specs.Colors.{color_reply};
ghost use Rattle.rx_paint_reply.specs.Tokens.{tokens_reply};
ghost use Rattle.rx_run.specs.Reply.{IsReply, IsSaid, begins_ok, canonical_reply, display_reply, err_reply, mode_name, support_reply};
ghost use Rattle.rx_command.specs.Dialects.{rules_for};
ghost use Rattle.rx_command.specs.Features.{needs_feature};
ghost use Rattle.rx_lint.specs.Findings.{findings};
ghost use Rattle.rx_lint_reply.specs.Findings.{findings_reply};
ghost use Rattle.rx_model.specs.Trees.Early.{IsEarly};
ghost use Rattle.rx_rewrite.specs.Answers.{rules_of};
ghost use Rattle.rx_rewrite_reply.specs.Replies.{IsRewriteReply};

use crate::asking::request_in;
use crate::replying::Replying;
use crate::request::Request;
use crate::spans::add_spans;
use rx_ast::Pattern;
use rx_base::{Diagnostic, Failed, Fault, List, OutOfMemory, Sink, write_all};
use rx_command::{Answering, Features, Service};
use rx_lint_reply::add_findings;
use rx_match::MatchFlags;
use rx_match_reply::{add_match, add_ticks};
use rx_paint_reply::{add_colors, add_tokens};
use rx_reply::{add_decimal, match_flags};
use rx_rewrite_reply::{Rewriting, add_rewritten};
use rx_tools::support::has_unsupported_regular_expression_flags;
use rx_tools::{Mode, append_canonical, display_text, read_pattern};
use std::alloc::Global;

/// The replies that are to be written next, and whether all replies so far begin with `ok`. The memory is used again after a write.
#[derive(Drop)]
pub struct Replies {
    pub bytes: List<u8>,
    pub all_ok: bool,
}

impl Replies {
    /// Takes no memory.
    pub fn new(alloc: Global) -> Replies
        ensures { result ≡ record { bytes = []; all_ok = true } }
    {
        Replies {
            bytes: List::new(alloc),
            all_ok: true,
        }
    }

    /// Adds a reply that does not begin with `ok`, or the front of one.
    fn add_refusal(&mut self, reply: &[u8]) -> Result<(), OutOfMemory>
        ensures bytes { OnOk result (self.new.bytes ≡ self.old.bytes ++ reply.now) }
        ensures all_ok { self.new.all_ok ≡ false }
    {
        self.all_ok = false;
        self.bytes.extend_from_slice(reply)
    }

    /// Adds what is said of a request that is read as this tree. After an error a part of it may stand at the end.
    fn add_said(
        &mut self,
        service: &Service<'_>,
        request: &Request<'_>,
        pattern: &Pattern,
        mode: Mode,
    ) -> Result<(), OutOfMemory>
        requires early { IsEarly (rules_for service.now.dialect) pattern.now }
        requires nested { IsNestedPattern (mirror pattern.now) }
        requires within { service.now.answering ≡ Answering.PaintColor → pattern.now.span.end ≤ length (literal_text request.now.text.now) }
        ensures { OnOk result ((reply : Sequence ℕ)
            × IsSaid service.now.answering (record { form = request.now.form; flags = flags_chars request.now.flags; text = chars request.now.text.now }) mode pattern.now reply
            × (self.new.bytes ≡ self.old.bytes ++ reply) × (self.new.all_ok ≡ (self.old.all_ok && begins_ok reply))) }
    {
        match &service.answering {
            Answering::Canonical => self.add_canonical(pattern, mode),
            Answering::Display => self.add_display(pattern, mode),
            Answering::Support(features) => {
                self.add_support(features, request.flags_field(), pattern)
            }
            Answering::Match { budget, text } => {
                let flags = match_flags(mode, request.flags_field());
                self.add_match(pattern, flags, text.as_str(), *budget)
            }
            Answering::Steps { text, most } => {
                let flags = match_flags(mode, request.flags_field());
                self.add_steps(pattern, flags, text.as_str(), *most)
            }
            Answering::Paint => self.add_tokens(pattern),
            Answering::PaintColor => self.add_colors(pattern, request.text),
            Answering::Lint => self.add_findings(pattern),
            Answering::Rewrite(wanted) => {
                let rewriting = Rewriting {
                    letters: request.flags_field(),
                    mode,
                    rules: service.dialect.rules(),
                    wanted: *wanted,
                };
                self.add_rewritten(pattern, rewriting)
            }
        }
    }

    /// Adds the reply that lists the findings in a tree.
    fn add_findings(&mut self, pattern: &Pattern) -> Result<(), OutOfMemory>
        ensures bytes { OnOk result (self.new.bytes ≡ self.old.bytes ++ findings_reply (findings (mirror pattern.now))) }
        ensures all_ok { self.new.all_ok ≡ self.old.all_ok }
    {
        add_findings(self.bytes.allocator(), &mut self.bytes, pattern)
    }

    /// Adds the reply with the plainer pattern, or with why there is none.
    fn add_rewritten(
        &mut self,
        pattern: &Pattern,
        rewriting: Rewriting<'_>,
    ) -> Result<(), OutOfMemory>
        requires { IsEarly (rules_of rewriting.rules) pattern.now }
        ensures { OnOk result ((reply : Sequence ℕ) × IsRewriteReply rewriting.entry.wanted rewriting.entry.letters.now rewriting.entry.mode (mirror pattern.now) reply
            × (self.new.bytes ≡ self.old.bytes ++ reply) × (self.new.all_ok ≡ (self.old.all_ok && begins_ok reply))) }
    {
        let start = self.bytes.len();
        add_rewritten(self.bytes.allocator(), &mut self.bytes, pattern, rewriting)?;
        self.judge_from(start);
        Ok(())
    }

    /// Adds the reply that lists the tokens of a tree.
    fn add_tokens(&mut self, pattern: &Pattern) -> Result<(), OutOfMemory>
        requires { IsNestedPattern (mirror pattern.now) }
        ensures bytes { OnOk result (self.new.bytes ≡ self.old.bytes ++ tokens_reply (pattern_tokens (mirror pattern.now))) }
        ensures all_ok { self.new.all_ok ≡ self.old.all_ok }
    {
        add_tokens(self.bytes.allocator(), &mut self.bytes, pattern)
    }

    /// Adds the reply that shows a literal in colours, by the tokens of its tree.
    fn add_colors(&mut self, pattern: &Pattern, text: &str) -> Result<(), OutOfMemory>
        requires nested { IsNestedPattern (mirror pattern.now) }
        requires within { pattern.now.span.end ≤ length (literal_text text.now) }
        ensures bytes { OnOk result (self.new.bytes ≡ self.old.bytes ++ color_reply (encode_utf8_all (literal_text (chars text.now))) (pattern_tokens (mirror pattern.now))) }
        ensures all_ok { self.new.all_ok ≡ self.old.all_ok }
    {
        add_colors(self.bytes.allocator(), &mut self.bytes, pattern, text)
    }

    /// Adds the reply that says what a tree matches in a text, with these flags.
    fn add_match(
        &mut self,
        pattern: &Pattern,
        flags: MatchFlags,
        text: &str,
        budget: u64,
    ) -> Result<(), OutOfMemory>
        ensures { OnOk result ((reply : Sequence ℕ) × IsMatchReply flags (chars text.now) (mirror pattern.now) budget reply
            × (self.new.bytes ≡ self.old.bytes ++ reply) × (self.new.all_ok ≡ (self.old.all_ok && begins_ok reply))) }
    {
        let start = self.bytes.len();
        let alloc = self.bytes.allocator();
        add_match(alloc, &mut self.bytes, pattern, flags, text, budget)?;
        self.judge_from(start);
        Ok(())
    }

    /// Adds the reply that says how many Ticks it takes to say so.
    fn add_steps(
        &mut self,
        pattern: &Pattern,
        flags: MatchFlags,
        text: &str,
        most: u64,
    ) -> Result<(), OutOfMemory>
        ensures { OnOk result ((reply : Sequence ℕ) × IsTicksReply flags (chars text.now) (mirror pattern.now) most reply
            × (self.new.bytes ≡ self.old.bytes ++ reply) × (self.new.all_ok ≡ (self.old.all_ok && begins_ok reply))) }
    {
        let start = self.bytes.len();
        let alloc = self.bytes.allocator();
        add_ticks(alloc, &mut self.bytes, pattern, flags, text, most)?;
        self.judge_from(start);
        Ok(())
    }

    /// Notes whether the reply that begins at this place of the bytes begins with `ok`.
    fn judge_from(&mut self, start: usize)
        requires { start ≤ length self.old.bytes }
        ensures bytes { self.new.bytes ≡ self.old.bytes }
        ensures all_ok { self.new.all_ok ≡ (self.old.all_ok && begins_ok (drop start self.old.bytes)) }
    {
        let is_ok = self.bytes.as_slice()[start..].starts_with(b"ok");
        self.all_ok = self.all_ok && is_ok;
    }

    /// Adds the reply with this mode and the canonical spelling of a tree.
    fn add_canonical(&mut self, pattern: &Pattern, mode: Mode) -> Result<(), OutOfMemory>
        ensures bytes { OnOk result (self.new.bytes ≡ self.old.bytes ++ canonical_reply mode (spelling (bare pattern.now) mode)) }
        ensures all_ok { self.new.all_ok ≡ self.old.all_ok }
    {
        self.bytes.extend_from_slice(ok_front(mode).as_bytes())?;
        append_canonical(self.bytes.allocator(), &mut self.bytes, pattern, mode)?;
        self.bytes.extend_from_slice(b"\n")
    }

    /// Adds the reply with this mode and the text that `Display` writes of a tree.
    fn add_display(&mut self, pattern: &Pattern, mode: Mode) -> Result<(), OutOfMemory>
        ensures bytes { OnOk result (self.new.bytes ≡ self.old.bytes ++ display_reply mode (encode_utf8_all (pattern_shown pattern.now))) }
        ensures all_ok { self.new.all_ok ≡ self.old.all_ok }
    {
        let text = display_text(self.bytes.allocator(), pattern)?;
        self.add_text(text.as_str(), mode)
    }

    /// Adds the reply with this mode and a text, with the number of its bytes before it.
    fn add_text(&mut self, text: &str, mode: Mode) -> Result<(), OutOfMemory>
        ensures bytes { OnOk result (self.new.bytes ≡ self.old.bytes ++ display_reply mode text.now) }
        ensures all_ok { self.new.all_ok ≡ self.old.all_ok }
    {
        self.bytes.extend_from_slice(ok_front(mode).as_bytes())?;
        add_decimal(&mut self.bytes, text.len())?;
        self.bytes.extend_from_slice(b"\t")?;
        self.bytes.extend_from_slice(text.as_bytes())?;
        self.bytes.extend_from_slice(b"\n")
    }

    /// Adds the reply that says whether something of these flags, and of a tree, is not supported.
    fn add_support(
        &mut self,
        features: &Features,
        flags: &str,
        pattern: &Pattern,
    ) -> Result<(), OutOfMemory>
        ensures bytes { OnOk result (self.new.bytes ≡ self.old.bytes ++ support_reply
            (are_refused_flags features.now.flags flags.now) (needs_feature features.now (order (pattern_kind (mirror pattern.now))))) }
        ensures all_ok { self.new.all_ok ≡ self.old.all_ok }
    {
        let of_flags = has_unsupported_regular_expression_flags(flags, &features.flags);
        let of_pattern = features.are_needed(self.bytes.allocator(), pattern)?;
        self.bytes
            .extend_from_slice(support_reply(of_flags, of_pattern).as_bytes())
    }

    /// Adds the reply with the name and the spans of a refusal.
    fn add_err(&mut self, cause: &Diagnostic) -> Result<(), OutOfMemory>
        ensures bytes { OnOk result (self.new.bytes ≡ self.old.bytes ++ err_reply cause.now) }
        ensures all_ok { self.new.all_ok ≡ false }
    {
        self.add_refusal(b"err\t")?;
        self.bytes.extend_from_slice(cause.name().as_bytes())?;
        self.bytes.extend_from_slice(b"\t")?;
        add_spans(&mut self.bytes, cause)?;
        self.bytes.extend_from_slice(b"\n")
    }
}

/// Lines are answered as a service says.
impl<'a> Replying<Service<'a>> for Replies {
    ghost use Rattle.rx_run.specs.Reply.{answers};

    ghost answers = { answers };

    ghost waiting = { λ replies. replies.bytes };

    ghost so_far = { λ replies. replies.all_ok };

    fn add(&mut self, with: &Service<'a>, line: &[u8]) -> Result<(), OutOfMemory> {
        let Some(request) = request_in(&with.answering, line) else {
            return self.add_refusal(b"bad\n");
        };
        let alloc = self.bytes.allocator();
        let options = with.dialect.options();
        let text = request.text_field();
        match read_pattern(alloc, request.form, text, request.flags, options) {
            Ok((pattern, mode)) => self.add_said(with, &request, &pattern, mode),
            Err(Fault::Diagnostic(cause)) => self.add_err(&cause),
            Err(Fault::OutOfMemory) => Err(OutOfMemory),
        }
    }

    fn write<K: Sink>(&mut self, sink: &mut K) -> Result<(), Failed>
        ensures written { Written K.taken K.fixed K.faults sink.old sink.new result self.old.bytes }
        ensures so_far { self.new.all_ok ≡ self.old.all_ok }
        ensures waiting { self.new.bytes ≡ [] }
    {
        let result = write_all(sink, self.bytes.as_slice());
        self.bytes.clear();
        result
    }

    fn are_ok(&self) -> bool
        ensures { result ≡ self.now.all_ok }
    {
        self.all_ok
    }
}

/// What an `ok` reply with a mode begins with.
fn ok_front(mode: Mode) -> &'static str
    ensures { result.now ≡ codes "ok\t" ++ mode_name mode ++ codes "\t" }
{
    match mode {
        Mode::Legacy => "ok\tlegacy\t",
        Mode::Unicode => "ok\tunicode\t",
        Mode::Sets => "ok\tsets\t",
    }
}

/// The reply that says what is not supported.
fn support_reply(of_flags: bool, of_pattern: bool) -> &'static str
    ensures { result.now ≡ support_reply of_flags of_pattern }
{
    match (of_flags, of_pattern) {
        (false, false) => "ok\t0\t0\n",
        (false, true) => "ok\t0\t1\n",
        (true, false) => "ok\t1\t0\n",
        (true, true) => "ok\t1\t1\n",
    }
}
