ghost use Rattle.std.specs.Prelude.{◌≡◌, ◌≤◌, true, IfOk};
ghost use Rattle.rx_ast.specs.Tree.{mirror};
ghost use Rattle.rx_model.specs.Trees.Early.{IsEarly, most_groups};
ghost use Rattle.rx_model.specs.Trees.Names.{groups};
ghost use Rattle.rx_trace.specs.Answers.{settings};
ghost use Rattle.rx_rewrite.specs.Rewriting.{flags_rewritten};
ghost use Rattle.rx_rewrite.specs.GroupNumbers.{IsNumberingOf};
ghost use Rattle.rx_rewrite.specs.Answers.{IsRewritten, rules_of};
ghost use Rattle.rx_rewrite.specs.Promises.{Promises};

use crate::fault::RewriteFault;
use crate::numbers::GroupNumbers;
use crate::rewriter::rewrite_disjunction;
use crate::rewrites::Rewrites;
use crate::settings::SettingsPair;
use rx_ast::Pattern;
use rx_trace::{MatchFlags, Settings, settings_at_start};
use rx_visit::nodes_in_order;
use std::alloc::Global;

/// A plainer pattern with the same outcomes on every input: without what is asked for (docs/REWRITE.md). The modes are whether it is a unicode mode and
/// whether it is sets mode; the rules are whether two groups may have one name where they never both take part, and whether the buffer boundaries are read.
pub fn rewrite(
    alloc: Global,
    pattern: &Pattern,
    modes: (bool, bool),
    rules: (bool, bool),
    flags: MatchFlags,
    what: Rewrites,
) -> Result<Pattern, RewriteFault>
    requires modes { modes.1 ≡ true → modes.0 ≡ true }
    requires early { IsEarly (rules_of rules) pattern.now }
    requires unicode_mode { flags.unicode_mode ≡ modes.0 }

    ensures rewritten { IsRewritten what flags (mirror pattern.now) result }
    ensures promised { IfOk result (λ it. Promises what flags pattern.now it) }
{
    let numbers = numbers_for(alloc, pattern, what)?;
    let settings = SettingsPair {
        old: settings_at_start(flags),
        new: settings_left(flags, what),
    };
    let body = rewrite_disjunction(alloc, what, &numbers, settings, &pattern.body)?;
    Ok(Pattern {
        span: pattern.span,
        body,
    })
}

/// The numbers of the groups that have names, where names are to go.
fn numbers_for(
    alloc: Global,
    pattern: &Pattern,
    what: Rewrites,
) -> Result<GroupNumbers, RewriteFault>
    requires { groups pattern.now ≤ most_groups }
    ensures { IsNumberingOf what (mirror pattern.now) result }
{
    if !what.named_capture_groups {
        return Ok(GroupNumbers::new(alloc));
    }
    let nodes = nodes_in_order(alloc, pattern)?;
    GroupNumbers::of(alloc, nodes.as_slice())
}

/// The settings that a pattern begins with when it is rewritten.
fn settings_left(flags: MatchFlags, what: Rewrites) -> Settings
    ensures { result ≡ settings (flags_rewritten what flags) }
{
    Settings {
        multiline: flags.multiline && !what.multiline,
        dot_all: flags.dot_all && !what.dot_all,
    }
}
