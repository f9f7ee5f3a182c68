ghost use Rattle.std.specs.Prelude.{◌≡◌, IfOk, map};
ghost use Rattle.std.specs.Option.{option_map};
ghost use Rattle.rx_ast.specs.MirrorKinds.{mirror_kind};
ghost use Rattle.rx_visit.specs.Names.{name_of, has_equal_names};

use rx_ast::RegExpAstKind;
use rx_base::{OutOfMemory, Text};
use std::alloc::Global;
use std::collections::BTreeSet;

/// The name of a group that has one.
pub fn name_of<'a>(kind: RegExpAstKind<'a>) -> Option<&'a Text>
    ensures { option_map (λ name. name.now) result ≡ name_of (mirror_kind kind.entry) }
{
    match kind {
        RegExpAstKind::CapturingGroup(it) => it.name.as_ref(),
        _ => None,
    }
}

/// Whether two of the nodes are groups of one name. The names so far stand in a set, so that each node is looked at once.
pub fn has_equal_names(alloc: Global, nodes: &[RegExpAstKind<'_>]) -> Result<bool, OutOfMemory>
    ensures { IfOk result (λ found. found ≡ has_equal_names (map mirror_kind nodes.now)) }
{
    let mut names: BTreeSet<&str> = BTreeSet::new(alloc);
    for node in nodes {
        if let Some(name) = name_of(*node) {
            if !names.insert(name.as_str())? {
                return Ok(true);
            }
        }
    }
    Ok(false)
}
