ghost use Rattle.std.specs.Prelude.{◌≡◌, ◌++◌, OnOk};
ghost use Rattle.rx_lint_reply.specs.Findings.{finding_text, findings_text, later_findings_text, rule_name};

use rx_base::{List, OutOfMemory};
use rx_lint::{Finding, Rule};
use rx_reply::add_span;

/// Adds findings, with blanks between.
pub fn add_findings_text(bytes: &mut List<u8>, findings: &[Finding]) -> Result<(), OutOfMemory>
    ensures { OnOk result (bytes.new ≡ bytes.old ++ findings_text findings.now) }
{
    let Some((first, later)) = findings.split_first() else {
        return Ok(());
    };
    add_finding(bytes, *first)?;
    add_later_findings(bytes, later)
}

/// Adds findings, with a blank before each.
fn add_later_findings(bytes: &mut List<u8>, findings: &[Finding]) -> Result<(), OutOfMemory>
    ensures { OnOk result (bytes.new ≡ bytes.old ++ later_findings_text findings.now) }
{
    for finding in findings {
        bytes.extend_from_slice(b" ")?;
        add_finding(bytes, *finding)?;
    }
    Ok(())
}

/// Adds the rule of a finding, and where its node stands.
fn add_finding(bytes: &mut List<u8>, finding: Finding) -> Result<(), OutOfMemory>
    ensures { OnOk result (bytes.new ≡ bytes.old ++ finding_text finding) }
{
    bytes.extend_from_slice(rule_name(finding.rule).as_bytes())?;
    bytes.extend_from_slice(b"@")?;
    add_span(bytes, finding.span)
}

fn rule_name(rule: Rule) -> &'static str
    ensures { result.now ≡ rule_name rule }
{
    match rule {
        Rule::EmptyClass => "empty_class",
        Rule::RepeatedMember => "repeated_member",
        Rule::EmptyAlternative => "empty_alternative",
        Rule::RepeatedAlternative => "repeated_alternative",
        Rule::UnusedName => "unused_name",
        Rule::UselessQuantifier => "useless_quantifier",
    }
}
