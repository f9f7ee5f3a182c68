ghost use Rattle.std.specs.Prelude.{◌≡◌, ◌++◌, OnOk};
ghost use Rattle.rx_ast.specs.Tree.{mirror};
ghost use Rattle.rx_lint.specs.Findings.{findings};
ghost use Rattle.rx_lint_reply.specs.Findings.{findings_reply};

use crate::findings::add_findings_text;
use rx_ast::Pattern;
use rx_base::{List, OutOfMemory};
use rx_lint::lint;
use std::alloc::Global;

/// Adds the reply that lists the findings in a pattern. After an error a part of the reply may stand at the end.
pub fn add_findings(
    alloc: Global,
    bytes: &mut List<u8>,
    pattern: &Pattern,
) -> Result<(), OutOfMemory>
    ensures { OnOk result (bytes.new ≡ bytes.old ++ findings_reply (findings (mirror pattern.now))) }
{
    let findings = lint(alloc, pattern)?;
    bytes.extend_from_slice(b"ok\t")?;
    add_findings_text(bytes, findings.as_slice())?;
    bytes.extend_from_slice(b"\n")
}
