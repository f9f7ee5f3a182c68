//! Laws of the replies, for contracts alone. The functions do nothing: each contract is a law.

ghost use Rattle.std.specs.Prelude.{◌≡◌, ◌&&◌, ℕ, true, List};
ghost use Rattle.rx_base.specs.Flags.{holds, is_flag};
ghost use Rattle.rx_model.specs.declared.mode.Mode.{Mode};
ghost use Rattle.rx_model.specs.Inputs.Flags.{flags_ok, mode_of};
ghost use Rattle.rx_reply.specs.Flags.{match_flags};
ghost use Rattle.rx_rewrite.specs.declared.rewrites.Rewrites.{Rewrites};
ghost use Rattle.rx_rewrite.specs.Rewriting.{flags_rewritten};
ghost use Rattle.rx_rewrite_reply.specs.Replies.{flags_left, stays};

/// With the flags that are left the rewritten pattern is matched as is promised of it, whatever mode it is read in. They ask for the mode that the flags of the line ask for, so
/// that it is read in that mode; and they are right where those are: each is a flag, none stands twice, and not `u` and `v` both (RegExpInitialize of ECMA-262, 22.2.3.3). Of
/// the eight flags those of the line are left, but for the ones that go.
pub fn flags_left_are_those_of_the_promise()
    ensures flags { (what : Rewrites) (letters : List ℕ) (mode : Mode) → match_flags mode (flags_left what letters) ≡ flags_rewritten what (match_flags mode letters) }
    ensures mode { (what : Rewrites) (letters : List ℕ) → mode_of (flags_left what letters) ≡ mode_of letters }
    ensures each { (what : Rewrites) (letters : List ℕ) (flag : ℕ) → is_flag flag ≡ true → holds (flags_left what letters) flag ≡ (stays what flag && holds letters flag) }
    ensures right { (what : Rewrites) (letters : List ℕ) → flags_ok letters ≡ true → flags_ok (flags_left what letters) ≡ true }
{}
