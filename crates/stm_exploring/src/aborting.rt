//! Rules that have no `abort`: they are broken by a fault alone, which few mean.

use crate::asked_keys::rule_word;
use crate::audience::Audience;
use crate::rules::{RuleAnswer, is_broken};
use std::alloc::{AllocError, Global};
use stm_program::{Block, Stmt, StmtNode};

/// Whether an abort stands in a statement.
#[cycle(statements)]
fn has_abort(statement: &Stmt) -> bool {
    match &statement.node {
        StmtNode::Abort(_) => true,
        StmtNode::If(_, yes, no) => {
            if has_abort_within(yes) {
                return true;
            }
            has_abort_within(no)
        }
        StmtNode::For(_, _, _, body) => has_abort_within(body),
        StmtNode::Put(_, _, _) | StmtNode::Del(_) | StmtNode::Set(_, _) | StmtNode::Emit(_) => {
            false
        }
    }
}

/// Whether an abort stands in a block.
#[cycle(statements)]
fn has_abort_within(block: &Block) -> bool {
    let statements: &Vec<Stmt> = &block.statements;
    have_abort(statements.as_slice())
}

/// Whether an abort stands in statements.
#[cycle(statements)]
fn have_abort(statements: &[Stmt]) -> bool {
    match statements {
        [] => false,
        [first, rest @ ..] => {
            if has_abort(first) {
                return true;
            }
            have_abort(rest)
        }
    }
}

/// Says of the rule at a place that it has no abort.
fn tell_rule<O: Audience>(
    alloc: Global,
    answers: &[RuleAnswer],
    place: usize,
    audience: &mut O,
) -> Result<(), AllocError> {
    let who = rule_word(alloc, answers, place)?;
    let who = who.as_str();
    let line = format!(in alloc; "{who} has no abort, so only a fault breaks it")?;
    audience.doubt_rule(line.as_str());
    Ok(())
}

/// Says which rules have no abort, of those that are not broken.
pub(crate) fn tell_without_abort<O: Audience>(
    alloc: Global,
    answers: &[RuleAnswer],
    audience: &mut O,
) -> Result<(), AllocError> {
    for place in 0..answers.len() {
        let a = &answers[place];
        if !is_broken(a) && !have_abort(a.rule.program.statements()) {
            tell_rule(alloc, answers, place, audience)?;
        }
    }
    Ok(())
}
