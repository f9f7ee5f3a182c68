//! What the words of `run` come to.
ghost use Rattle.std.specs.Prelude.{◌≡◌, ◌↔◌, ℕ, Bool, List as Sequence};
ghost use Rattle.std.specs.List.{AllZip, concat, list_all};
ghost use Rattle.rx_command.specs.declared.service.Service.{Service as Services};
ghost use Rattle.rx_run.specs.Lines.{lines_of};
ghost use Rattle.rx_run.specs.Outcome.{IsAnswered};
ghost use Rattle.rx_run.specs.Reply.{IsReply, answers, begins_ok};

/// Without `json` the lines are answered by replies, in order, and all count as ok exactly if all begin with `ok`.
pub fn replies_count_by_their_first_letters()
    ensures { (service : Services) (read written : Sequence ℕ) (all_ok : Bool)
        → IsAnswered (answers service) read written all_ok
        ↔ ((replies : Sequence (Sequence ℕ)) × AllZip (IsReply service) (lines_of read) replies × (written ≡ concat replies) × (all_ok ≡ list_all begins_ok replies)) }
{}
