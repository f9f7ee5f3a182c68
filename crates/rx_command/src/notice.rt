ghost use Rattle.std.specs.Prelude.{◌≡◌, MatchOption};
ghost use Rattle.std.specs.Str.{chars};
ghost use Rattle.rx_command.specs.declared.notice.Notice.{Notice as Notices};
ghost use Rattle.rx_command.specs.Notices.{notice_text, notice_word};

/// What `--help` writes.
pub const HELP: &str =
    r"regexp reads patterns of ECMAScript regular expressions, and says how each is read, or why it is refused.

Without words it reads lines from standard input, and writes one reply to each, in order. A line is
  FORM <TAB> FLAGS <TAB> PATTERN
FORM is L for a literal, whose pattern is the text between the slashes, or C for arguments of RegExp, whose fields have quotes.

Replies:
  ok <TAB> MODE <TAB> SPELLING    the pattern is read: its mode (legacy, unicode or sets) and its canonical spelling
  err <TAB> NAME <TAB> SPANS      the flags or the pattern are refused; a span is start..end, in bytes of the field
  bad                             the line is longer than 1048576 bytes, is not UTF-8, has fewer than two TABs, or has another FORM

Words, which change what is said of a pattern that is read:
  display          ok <TAB> MODE <TAB> LENGTH <TAB> TEXT  with the text that Display writes of it, and the number of its bytes
and of literals alone, so that form C is bad:
  support LIST     ok <TAB> F <TAB> P  where F is 1 where a flag is of the list, and P where something of the pattern is; else 0. LIST is
                   one or more of these, with commas between, none twice: sticky, unicode, dot_all, match_indices, unicode_sets,
                   named_capture_groups, duplicate_named_capture_groups, unicode_property_escapes, look_behind_assertions,
                   pattern_modifiers, buffer_boundaries
  match BUDGET TEXT  what it matches first in TEXT within a BUDGET of Ticks, in 1 to 10 digits:  ok <TAB> START..END <TAB> SLOTS  or
                   ok <TAB> none  or  spent  or  unsupported <TAB> flag (i) or SPAN. A group's slot is START..END too, or -
  steps TEXT MOST  how many Ticks that takes:  ok <TAB> TICKS  or, above MOST, in 1 to 19 digits,  more
  paint [color]    ok <TAB>  and its tokens, START..END=KIND; or the pattern in colours
  lint             ok <TAB>  and its findings, RULE@START..END: what is likely a slip, or can be written shorter
  rewrite [LIST]   ok <TAB> FLAGS <TAB> SPELLING  of a plainer pattern that matches the same: without names of groups, the flags m and s and
                   the modifiers m and s; or without what a LIST names: named_capture_groups, multiline, dot_all, pattern_modifiers.
                   Where there is none,  err <TAB> name_used_twice <TAB> SPANS  or, with a LIST,  err <TAB> unsupported <TAB> SPAN
  strict           before one of these, or alone: no two groups may have one name, and \A, \z and \Z are no boundaries
  standard         before one of these, or alone: the arguments of a line of form C are read as ECMA-262 has them
  json             each line is a request in JSON, and so is its reply (docs/JSON.md): ok by its status; no input is too long
  gen SEED COUNT   reads nothing; makes COUNT patterns (1 to 20000) from a SEED below 2147483648; writes how many are read, in how many bytes
  --help, --version  writes this text, the version

Status:
  0  the input was read to its end, and every reply begins with ok; or what was asked for was written
  1  the input was read to its end, and some reply does not begin with ok
  2  the words are none of the above, or not UTF-8; nothing is read or written
  3, 4, 5, 6  a fault of reading; a fault of writing; out of memory; the input is longer than 67108864 bytes

Example:
  printf 'L\tu\t\\x41{1,}\n' | regexp      writes  ok <TAB> unicode <TAB> A+
";

/// What `--version` writes.
pub const VERSION: &str = "regexp 0.2.0 (a port of oxc_regular_expression 0.156.0)\n";

/// A text in which the program tells of itself.
#[derive(Clone, Copy, Debug, PartialEq, Eq)]
pub enum Notice {
    /// What the program reads and writes.
    Help,

    /// Its version.
    Version,
}

impl Notice {
    /// The text that this word asks for, or none.
    // Why: docs/DECISIONS.md, 58.
    pub fn from_name(word: &str) -> Option<Notice>
        ensures { MatchOption result
            ((notice : Notices) → ¬ (chars word.now ≡ notice_word notice))
            (λ notice. chars word.now ≡ notice_word notice) }
    {
        match word {
            "--help" => Some(Notice::Help),
            "--version" => Some(Notice::Version),
            _ => None,
        }
    }

    #[tactic(auto, unfolding(crate::specs::Notices::notice_text))]
    pub fn text(self) -> &'static str
        ensures { result.now ≡ notice_text self }
    {
        match self {
            Notice::Help => HELP,
            Notice::Version => VERSION,
        }
    }
}
