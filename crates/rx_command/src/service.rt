ghost use Rattle.std.specs.Prelude.{MatchOption};
ghost use Rattle.rx_command.specs.declared.service.Service.{Service as Services};
ghost use Rattle.rx_command.specs.Command.{IsServing};

use crate::answer::Answering;
use crate::dialect::Dialect;
use rx_base::Text;

/// How lines are answered: with which options they are read, and what is said of them.
#[derive(Drop)]
pub struct Service<'a> {
    pub dialect: Dialect,
    pub answering: Answering<'a>,
}

impl<'a> Service<'a> {
    /// How lines are answered with these words, or none where the words are not of those lists.
    pub fn parse(words: &'a [Text]) -> Option<Service<'a>>
        ensures { MatchOption result
            ((service : Services) → ¬ IsServing words.now service.dialect service.answering)
            (λ service. IsServing words.now service.dialect service.answering) }
    {
        let (dialect, rest) = Dialect::split(words);
        let answering = Answering::parse(rest)?;
        Some(Service { dialect, answering })
    }
}
