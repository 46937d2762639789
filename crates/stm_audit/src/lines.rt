//! What is printed of an audit.
ghost use Rattle.std.specs.Prelude.{◌≡◌, ◌++◌, IfOk, OnOk, length, string_bytes};
ghost use Rattle.std.specs.List.{list_any};
ghost use Rattle.serde_json.specs.View.{view};
ghost use Rattle.stm_report_lines.specs.Text.{line_text};
ghost use Rattle.stm_audit.specs.Lines.{finding_word, finding_line, findings_text, end_line, audit_text, audit_status};

use crate::auditing::Audited;
use crate::finding::Finding;
use serde_json::{Value as Json, json};
use std::alloc::{AllocError, Global};
use stm_report_lines::{push_line, worded_json};

/// The word that the line of a finding begins with.
fn finding_word(is_broken: bool) -> &'static str
    ensures { result.now ≡ finding_word is_broken }
{
    if is_broken { "broken" } else { "found" }
}

/// The line of a finding.
fn finding_json(alloc: Global, finding: &Finding) -> Result<Json, AllocError>
    ensures { IfOk result (λ v. view v ≡ finding_line finding.now) }
{
    let word = finding_word(finding.is_broken);
    json!(in alloc; [word, finding.commit, finding.anomaly.name(), finding.key.as_str(), finding.seen, finding.held])
}

/// Adds the line of a finding.
fn push_finding(alloc: Global, text: &mut String, finding: &Finding) -> Result<(), AllocError>
    ensures { OnOk result (string_bytes text.new ≡ string_bytes text.old ++ line_text (finding_line finding.now)) }
{
    let line = finding_json(alloc, finding)?;
    push_line(alloc, text, &line)
}

/// Adds a line for each finding.
fn push_findings(alloc: Global, text: &mut String, findings: &[Finding]) -> Result<(), AllocError>
    ensures { OnOk result (string_bytes text.new ≡ string_bytes text.old ++ findings_text findings.now) }
{
    for finding in findings {
        push_finding(alloc, text, finding)?;
    }
    Ok(())
}

/// The last line, by the number of commits.
fn end_json(alloc: Global, off: Option<u64>, commits: u64) -> Result<Json, AllocError>
    ensures { IfOk result (λ v. view v ≡ end_line off commits) }
{
    match off {
        Some(number) => worded_json(alloc, "off", &[&number]),
        None => worded_json(alloc, "commits", &[&commits]),
    }
}

/// Adds that line.
fn push_end(
    alloc: Global,
    text: &mut String,
    off: Option<u64>,
    commits: u64,
) -> Result<(), AllocError>
    ensures { OnOk result (string_bytes text.new ≡ string_bytes text.old ++ line_text (end_line off commits)) }
{
    let line = end_json(alloc, off, commits)?;
    push_line(alloc, text, &line)
}

/// The lines of an audit, of a trace that has so many commits.
pub(crate) fn text_of(alloc: Global, audited: &Audited, commits: u64) -> Result<String, AllocError>
    ensures { IfOk result (λ text. string_bytes text ≡ audit_text audited.now commits) }
{
    let mut text = String::new(alloc);
    push_findings(alloc, &mut text, audited.findings.as_slice())?;
    push_end(alloc, &mut text, audited.off, commits)?;
    Ok(text)
}

/// Whether one of these findings breaks a promise.
fn any_is_broken(findings: &[Finding]) -> bool
    ensures { result ≡ list_any (λ (f : _). f.is_broken) findings.now }
{
    findings.iter().any(|finding| finding.is_broken)
}

/// The status of an audit.
pub(crate) fn status_of(audited: &Audited) -> u8
    ensures { result ≡ audit_status audited.now }
{
    if audited.off.is_some() || any_is_broken(audited.findings.as_slice()) {
        1
    } else {
        0
    }
}
