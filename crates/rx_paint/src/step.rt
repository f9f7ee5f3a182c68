ghost use Rattle.std.specs.Prelude.{◌≡◌, ◌++◌, ◌+◌, ◌*◌, ◌<◌, length};
ghost use Rattle.std.specs.Result.{OnOk};
ghost use Rattle.rx_ast.specs.Kinds.{order};
ghost use Rattle.rx_ast.specs.MirrorKinds.{mirror_kind};
ghost use Rattle.rx_paint.specs.Edges.{edges};
ghost use Rattle.rx_ast.specs.Forest.{nothing};
ghost use Rattle.rx_paint.specs.Paints.{token_forest};
ghost use Rattle.rx_paint.specs.Steps.{edges_to_come, weight};

use crate::paint_of::{modifiers_of, paint_of};
use crate::token::{Kind, Token};
use rx_ast::RegExpAstKind;
use rx_base::{GetSpan, List, OutOfMemory};
use rx_visit::{Siblings, children_of};

/// What is still to be done of a walk over the nodes of a pattern.
#[derive(Clone, Copy)]
pub(crate) enum Step<'a> {
    /// From this offset on this is the owner.
    Turn(u32, Token),

    /// To visit nodes one after another, in a node that owns what they do not.
    Visit(Siblings<'a>, Token),
}

/// Puts a node before what is still to be done.
pub(crate) fn open<'a>(
    left: &mut List<Step<'a>>,
    node: RegExpAstKind<'a>,
    parent: Token,
) -> Result<(), OutOfMemory>
    ensures edges { OnOk result (edges_to_come left.new ≡ edges parent (token_forest (mirror_kind node.entry) nothing) ++ edges_to_come left.old) }
    ensures lighter { OnOk result (weight left.new < weight left.old + 7 * length (order (mirror_kind node.entry))) }
{
    let Some(kind) = paint_of(node) else {
        left.push(Step::Visit(children_of(node), parent))?;
        return Ok(());
    };
    let span = node.span();
    let own = Token { span, kind };
    left.push(Step::Turn(span.end, parent))?;
    left.push(Step::Visit(children_of(node), own))?;
    if let Some(modifiers) = modifiers_of(node) {
        let of_modifiers = Token {
            span: modifiers,
            kind: Kind::Modifier,
        };
        left.push(Step::Turn(modifiers.end, own))?;
        left.push(Step::Turn(modifiers.start, of_modifiers))?;
    }
    left.push(Step::Turn(span.start, own))?;
    Ok(())
}
