ghost use Rattle.std.specs.Prelude.{◌≡◌, ◌↔◌, ◌∷◌, ℕ, [], IsTrue, MatchOption, codes};
ghost use Rattle.std.specs.Str.{chars};
ghost use Rattle.rx_command.specs.declared.command.Command.{Command as Commands};
ghost use Rattle.rx_command.specs.declared.notice.Notice.{Notice as Notices};
ghost use Rattle.rx_command.specs.Command.{IsCommand, IsGen};
ghost use Rattle.rx_command.specs.Notices.{notice_word};

use crate::notice::Notice;
use crate::number::decimal_value;
use crate::service::Service;
use rx_base::Text;

/// The longest seed and the longest count, in digits.
const DIGITS: usize = 10;

/// What each seed is below.
const SEED_LIMIT: u64 = 2147483648;

/// The most patterns that are made.
const COUNT_LIMIT: u64 = 20000;

/// What the words after the program's name ask for.
#[derive(Drop)]
pub enum Command<'a> {
    /// No words, `display`, `support LIST`, `match BUDGET TEXT`, `steps TEXT MOST`, `paint`, `paint color`, `lint`, `rewrite` or `rewrite LIST`, or `strict` or
    /// `standard` and one of these lists: the lines of the input are answered.
    Serve(Service<'a>),

    /// `gen SEED COUNT`: n patterns are made from this seed, and spelled.
    Generate { seed: u32, count: u32 },

    /// `--help` or `--version`: a text is written.
    Print(Notice),

    /// `json`: each line of the input is a request in JSON, and each reply is one.
    Json,
}

impl<'a> Command<'a> {
    /// The command that has these words, or none where they are none of the stated lists.
    pub fn parse(words: &'a [Text]) -> Option<Command<'a>>
        ensures { MatchOption result
            ((command : Commands) → ¬ IsCommand words.now command)
            (λ command. IsCommand words.now command) }
    {
        if let Some(notice) = notice(words) {
            return Some(Command::Print(notice));
        }
        if let Some(command) = generation(words) {
            return Some(command);
        }
        if are_json(words) {
            return Some(Command::Json);
        }
        let service = Service::parse(words)?;
        Some(Command::Serve(service))
    }
}

/// Whether these words are `json`.
fn are_json(words: &[Text]) -> bool
    ensures { IsTrue result ↔ (words.now ≡ codes "json" ∷ []) }
{
    match words {
        [word] => is_json(word.as_str()),
        _ => false,
    }
}

fn is_json(word: &str) -> bool
    ensures { IsTrue result ↔ (word.now ≡ codes "json") }
{
    word == "json"
}

/// The text that these words ask for, or none where they ask for none.
fn notice(words: &[Text]) -> Option<Notice>
    ensures { MatchOption result
        ((notice : Notices) → ¬ (words.now ≡ notice_word notice ∷ []))
        (λ notice. words.now ≡ notice_word notice ∷ []) }
{
    match words {
        [word] => Notice::from_name(word.as_str()),
        _ => None,
    }
}

/// The command with these words, or none where they are not `gen`, a seed and a count.
fn generation(words: &[Text]) -> Option<Command<'_>>
    ensures { MatchOption result
        ((seed count : ℕ) → ¬ IsGen words.now seed count)
        (λ command. IsCommand words.now command) }
{
    match words {
        [name, seed, count] => three_words(name.as_str(), seed.as_str(), count.as_str()),
        _ => None,
    }
}

/// The command with these three words, or none where they are not `gen`, a seed and a count.
fn three_words<'a>(name: &'a str, seed: &'a str, count: &'a str) -> Option<Command<'a>>
    ensures { MatchOption result
        ((seed_value count_value : ℕ) → ¬ IsGen (chars name.now ∷ chars seed.now ∷ chars count.now ∷ []) seed_value count_value)
        (λ command. IsCommand (chars name.now ∷ chars seed.now ∷ chars count.now ∷ []) command) }
{
    if !is_gen(name) {
        return None;
    }
    let seed = decimal_value(seed, DIGITS)?;
    let count = decimal_value(count, DIGITS)?;
    if seed >= SEED_LIMIT || count == 0 || count > COUNT_LIMIT {
        return None;
    }
    Some(Command::Generate {
        seed: seed as u32,
        count: count as u32,
    })
}

fn is_gen(word: &str) -> bool
    ensures { IsTrue result ↔ (word.now ≡ codes "gen") }
{
    word == "gen"
}
