ghost use Rattle.std.specs.Prelude.{◌≡◌, ◌++◌, ◌∷◌, List as Items, IfOk};
ghost use Rattle.std.specs.Result.{OnOk};
ghost use Rattle.rx_ast.specs.Tree.{mirror};
ghost use Rattle.rx_paint.specs.Edges.{run_or_none, tokens_left, Edge};
ghost use Rattle.rx_ast.specs.Parts.{IsNestedPattern};
ghost use Rattle.rx_paint.specs.Runs.{pattern_tokens};

use crate::step::{Step, open};
use crate::token::{Kind, Token};
use rx_ast::{Pattern, RegExpAstKind};
use rx_base::{List, OutOfMemory, Span};
use rx_visit::Siblings;
use std::alloc::Global;

/// The run that is being painted: of `owner`, from `from` as far as `at`, from where on `next` is the owner.
#[derive(Clone, Copy)]
struct Brush {
    from: u32,
    owner: Token,
    at: u32,
    next: Token,
}

/// Lists the run as far as it has come, where it is not empty.
fn list_run(tokens: &mut List<Token>, brush: Brush) -> Result<(), OutOfMemory>
    ensures { OnOk result (tokens.new ≡ tokens.old ++ run_or_none brush.from brush.at brush.owner) }
{
    if brush.from < brush.at {
        tokens.push(Token {
            span: Span::new(brush.from, brush.at),
            kind: brush.owner.kind,
        })?;
    }
    Ok(())
}

/// Moves on to an offset, from where on `next` is the owner, and lists the run that ends on the way, if one does.
fn turn(tokens: &mut List<Token>, brush: Brush, at: u32, next: Token) -> Result<Brush, OutOfMemory>
    ensures { IfOk result (λ after. (es : Items Edge) →
        tokens.new ++ tokens_left after.from after.owner after.at after.next es ≡ tokens.old ++ tokens_left brush.from brush.owner brush.at brush.next ((at, next) ∷ es)) }
{
    if brush.at >= at || brush.owner.is_same(&brush.next) {
        return Ok(Brush { at, next, ..brush });
    }
    list_run(tokens, brush)?;
    Ok(Brush {
        from: brush.at,
        owner: brush.next,
        at,
        next,
    })
}

/// The tokens of a nested pattern, in order: the longest runs of neighbouring offsets of its span with one owner, where the owner of an offset is the deepest
/// node whose span holds it. So they tile the span of the pattern.
///
/// Time and memory grow with the number of nodes, however deep they are nested: what is left of the walk stands on the heap.
pub fn paint(alloc: Global, pattern: &Pattern) -> Result<List<Token>, OutOfMemory>
    requires { IsNestedPattern (mirror pattern.now) }
    ensures { IfOk result (λ tokens. tokens ≡ pattern_tokens (mirror pattern.now)) }
{
    let root = Token {
        span: pattern.span,
        kind: Kind::Other,
    };
    let mut tokens = List::new(alloc);
    let mut brush = Brush {
        from: pattern.span.start,
        owner: root,
        at: pattern.span.start,
        next: root,
    };
    let mut left = List::new(alloc);
    left.push(Step::Turn(pattern.span.end, root))?;
    let body = RegExpAstKind::Disjunction(&pattern.body);
    left.push(Step::Visit(Siblings::Node(body), root))?;
    while let Some(step) = left.pop() {
        match step {
            Step::Turn(at, next) => brush = turn(&mut tokens, brush, at, next)?,
            Step::Visit(siblings, parent) => {
                let Some((node, others)) = siblings.split_first() else {
                    continue;
                };
                left.push(Step::Visit(others, parent))?;
                open(&mut left, node, parent)?;
            }
        }
    }
    list_run(&mut tokens, brush)?;
    Ok(tokens)
}
