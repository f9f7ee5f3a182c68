ghost use Rattle.std.specs.Prelude.{IfOk, map};
ghost use Rattle.rx_ast.specs.MirrorKinds.{mirror_kind};
ghost use Rattle.rx_lint.specs.Names.{HasNames};

use rx_ast::RegExpAstKind;
use rx_base::OutOfMemory;
use std::alloc::Global;
use std::collections::BTreeSet;

/// The names that named references among the nodes have.
pub(crate) fn referred_names<'a>(
    alloc: Global,
    nodes: &[RegExpAstKind<'a>],
) -> Result<BTreeSet<&'a str>, OutOfMemory>
    ensures { IfOk result (λ names. HasNames names (map mirror_kind nodes.now)) }
{
    let mut names = BTreeSet::new(alloc);
    for node in nodes {
        if let RegExpAstKind::NamedReference(it) = *node {
            names.insert(it.name.as_str())?;
        }
    }
    Ok(names)
}
