ghost use Rattle.std.specs.Prelude.{◌≡◌, ◌∷◌, [], MatchOption, codes};
ghost use Rattle.std.specs.Str.{chars};
ghost use Rattle.rx_command.specs.declared.answer.Answering.{Answering as Answers};
ghost use Rattle.rx_command.specs.declared.answer.Answering.TheVariants.{PaintColor};
ghost use Rattle.rx_command.specs.Command.{IsAnswering};

use crate::constructs::named_rewrites;
use crate::features::Features;
use crate::number::decimal_value;
use crate::subject::Subject;
use rx_base::Text;
use rx_rewrite::Wanted;

/// The longest budget of `match`, in digits.
const BUDGET_DIGITS: usize = 10;

/// The longest number of `steps`, in digits.
const MOST_DIGITS: usize = 19;

/// What is said of a request that is read.
#[derive(Drop)]
pub enum Answering<'a> {
    /// Its mode and its canonical spelling.
    Canonical,

    /// Its mode, and the text that `Display` writes of its tree, with the number of the text's bytes.
    Display,

    /// Whether its flags have one of these features, or are wrong, and whether its tree has one.
    Support(Features),

    /// What it matches first in this text, within a budget of Ticks.
    Match { budget: u64, text: Subject<'a> },

    /// How many Ticks it takes to say what it matches first in this text, where they are so many at most.
    Steps { text: Subject<'a>, most: u64 },

    /// The tokens of its tree.
    Paint,

    /// Its text in the colours of a terminal.
    PaintColor,

    /// What is likely a slip in its tree, or can be written shorter.
    Lint,

    /// The plainer pattern without what is to go, or why there is none.
    Rewrite(Wanted),
}

impl<'a> Answering<'a> {
    /// What is said with these words, which no word for options precedes, or none where the words are not of those lists.
    pub fn parse(words: &'a [Text]) -> Option<Answering<'a>>
        ensures { MatchOption result
            ((answering : Answers) → ¬ IsAnswering words.now answering)
            (λ answering. IsAnswering words.now answering) }
    {
        match words {
            [] => Some(Answering::Canonical),
            [word] => one_word(word.as_str()),
            [name, second] => two_words(name.as_str(), second.as_str()),
            [name, first, second] => match_or_steps(name.as_str(), first.as_str(), second.as_str()),
            _ => None,
        }
    }
}

/// What is said with this word, or none where it is none of those that stand alone.
fn one_word(word: &str) -> Option<Answering<'_>>
    ensures { MatchOption result
        ((answering : Answers) → ¬ IsAnswering (chars word.now ∷ []) answering)
        (λ answering. IsAnswering (chars word.now ∷ []) answering) }
{
    match word {
        "display" => Some(Answering::Display),
        "paint" => Some(Answering::Paint),
        "lint" => Some(Answering::Lint),
        "rewrite" => Some(Answering::Rewrite(Wanted::All)),
        _ => None,
    }
}

/// What is said with these two words, or none where they are not `support` and a list of features, `rewrite` and a list of constructs, or `paint color`.
fn two_words<'a>(name: &'a str, second: &'a str) -> Option<Answering<'a>>
    ensures { MatchOption result
        ((answering : Answers) → ¬ IsAnswering (chars name.now ∷ chars second.now ∷ []) answering)
        (λ answering. IsAnswering (chars name.now ∷ chars second.now ∷ []) answering) }
{
    match name {
        "support" => {
            let features = Features::parse(second)?;
            Some(Answering::Support(features))
        }
        "rewrite" => {
            let what = named_rewrites(second)?;
            Some(Answering::Rewrite(Wanted::Listed(what)))
        }
        "paint" => in_color(second),
        _ => None,
    }
}

/// What is said with this word after `paint`, or none where it is not `color`.
fn in_color(word: &str) -> Option<Answering<'_>>
    ensures { MatchOption result
        (¬ (word.now ≡ codes "color"))
        (λ answering. (word.now ≡ codes "color") × (answering ≡ PaintColor)) }
{
    match word {
        "color" => Some(Answering::PaintColor),
        _ => None,
    }
}

/// What is said with these three words, or none where they are not `match`, a budget and a text, or `steps`, a text and a number.
fn match_or_steps<'a>(name: &'a str, first: &'a str, second: &'a str) -> Option<Answering<'a>>
    ensures { MatchOption result
        ((answering : Answers) → ¬ IsAnswering (chars name.now ∷ chars first.now ∷ chars second.now ∷ []) answering)
        (λ answering. IsAnswering (chars name.now ∷ chars first.now ∷ chars second.now ∷ []) answering) }
{
    match name {
        "match" => {
            let budget = decimal_value(first, BUDGET_DIGITS)?;
            let text = Subject::new(second);
            Some(Answering::Match { budget, text })
        }
        "steps" => {
            let most = decimal_value(second, MOST_DIGITS)?;
            let text = Subject::new(first);
            Some(Answering::Steps { text, most })
        }
        _ => None,
    }
}
