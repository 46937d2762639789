//! Whether entries are the same.
ghost use Rattle.std.specs.Prelude.{◌≡◌, true};

use crate::answers::are_same_answers;
use crate::transactions::is_same_txn;
use stm_entries::Entry;
use stm_program::{Level, Program};
use stm_steps::{TraceItem, Value, are_same_traces, are_same_values};

/// Whether two outputs are the same.
fn is_same_output(left: &[Value], right: &[Value]) -> bool
    ensures { result ≡ true → left.now ≡ right.now }
{
    are_same_values(left, right)
}

/// Whether two traces are the same.
fn is_same_trace(left: &[TraceItem], right: &[TraceItem]) -> bool
    ensures { result ≡ true → left.now ≡ right.now }
{
    are_same_traces(left, right)
}

/// Whether two programs are the same.
fn is_same_program(left: &Program, right: &Program) -> bool
    ensures { result ≡ true → left.now ≡ right.now }
{
    left.is_same(right)
}

/// Whether two levels are the same.
fn is_same_level(left: Level, right: Level) -> bool
    ensures { result ≡ true → left ≡ right }
{
    left.is_same(right)
}

/// Whether two entries are the same.
pub fn is_same_entry(left: &Entry, right: &Entry) -> bool
    ensures { result ≡ true → left.now ≡ right.now }
{
    match (left, right) {
        (
            Entry::Program {
                program,
                level,
                answers,
                output,
                trace,
                revision,
            },
            Entry::Program {
                program: other_program,
                level: other_level,
                answers: other_answers,
                output: other_output,
                trace: other_trace,
                revision: other_revision,
            },
        ) => {
            *revision == *other_revision
                && is_same_level(*level, *other_level)
                && is_same_output(output.as_slice(), other_output.as_slice())
                && is_same_trace(trace.as_slice(), other_trace.as_slice())
                && are_same_answers(answers.as_slice(), other_answers.as_slice())
                && is_same_program(program, other_program)
        }
        (Entry::Foreign { txn }, Entry::Foreign { txn: other }) => is_same_txn(txn, other),
        (
            Entry::Grant { id, ttl, at },
            Entry::Grant {
                id: other,
                ttl: other_ttl,
                at: other_at,
            },
        ) => *id == *other && *ttl == *other_ttl && *at == *other_at,
        (
            Entry::Renew { id, at },
            Entry::Renew {
                id: other,
                at: other_at,
            },
        ) => *id == *other && *at == *other_at,
        (Entry::Revoke { id }, Entry::Revoke { id: other }) => *id == *other,
        (Entry::Expire { id }, Entry::Expire { id: other }) => *id == *other,
        _ => false,
    }
}

/// Whether these entries are those.
pub fn are_same_entries(left: &[Entry], right: &[Entry]) -> bool
    ensures { result ≡ true → left.now ≡ right.now }
{
    if left.len() != right.len() {
        return false;
    }
    for i in 0..left.len() {
        if !is_same_entry(&left[i], &right[i]) {
            return false;
        }
    }
    true
}
