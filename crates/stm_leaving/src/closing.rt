//! The statements of a program that statements of a source become.
ghost use Rattle.std.specs.Prelude.{◌≡◌, IfOk};
ghost use Rattle.stm_program.specs.BlockView.{block_of};
ghost use Rattle.stm_program.specs.Syntax as program;
ghost use Rattle.stm_leaving.specs.Source as tree;
ghost use Rattle.stm_leaving.specs.Closed as spec;

use crate::behind::Behind;
use crate::follow::{Follow, around, copy_follow, no_statements, nothing, with_next};
use crate::leaving::{in_copies, keep_to, keeps_to};
use crate::part::{Copies, Part, PartNode, Parts};
use crate::ways::Ways;
use std::alloc::{AllocError, Global};
use std::sync::Arc;
use stm_program::{Block, Cond, Expr, Stmt, StmtNode, Variable};

/// No way out.
const GOES_ON: Ways = Ways {
    returns: false,
    breaks: false,
    continues: false,
};

/// Whether a run ends with a statement of a program.
fn ends_run(statement: &Stmt) -> bool
    ensures { result ≡ spec.ends_run statement.now }
{
    match &statement.node {
        StmtNode::Abort(_) => true,
        _ => false,
    }
}

fn is_abort(part: &Part) -> bool
    ensures { result ≡ spec.is_abort part.now }
{
    match &part.node {
        PartNode::Plain(statement) => ends_run(statement),
        _ => false,
    }
}

/// The place of the first `abort` of a list; its length, if it has none.
fn first_abort(parts: &[Part]) -> usize
    ensures { result ≡ spec.first_abort parts.now }
{
    for place in 0..parts.len() {
        if is_abort(&parts[place]) {
            return place;
        }
    }
    parts.len()
}

/// A choice whose branches these follow. It fails only when out of memory.
#[cycle(closed)]
fn choice(
    alloc: Global,
    condition: &Arc<Cond>,
    yes: &Parts,
    no: &Parts,
    follow: &Follow,
) -> Result<Stmt, AllocError>
    ensures { IfOk result (λ s. s ≡ program.If condition.now.value (spec.closed yes.now follow.now) (spec.closed no.now follow.now)) }
{
    let yes = closed(alloc, yes, follow)?;
    let no = closed(alloc, no, follow)?;
    let condition = condition.clone()?;
    let node = StmtNode::If(condition, yes, no);
    Ok(Stmt { node })
}

/// A choice that is not left, and what comes behind it.
#[cycle(closed)]
fn kept_choice(
    alloc: Global,
    condition: &Arc<Cond>,
    yes: &Parts,
    no: &Parts,
    behind: Behind,
) -> Result<Behind, AllocError>
    ensures { IfOk result (λ b. b ≡ program.Then (program.If condition.now.value (spec.closed yes.now spec.nothing) (spec.closed no.now spec.nothing)) behind) }
{
    let nothing = nothing(alloc)?;
    let choice = choice(alloc, condition, yes, no, &nothing)?;
    behind.begun_with(choice)
}

/// A choice that may be left: what comes behind it goes into its branches.
#[cycle(closed)]
fn left_choice(
    alloc: Global,
    condition: &Arc<Cond>,
    yes: &Parts,
    no: &Parts,
    follow: &Follow,
    behind: Behind,
) -> Result<Behind, AllocError>
    ensures { IfOk result (λ b. b ≡ program.Then (program.If condition.now.value
        (spec.closed yes.now (spec.with_next follow.now behind)) (spec.closed no.now (spec.with_next follow.now behind))) program.End) }
{
    let next = behind.into_block(alloc)?;
    let follow = with_next(follow, next)?;
    let choice = choice(alloc, condition, yes, no, &follow)?;
    let end = no_statements(alloc)?;
    Behind::of(alloc, end).begun_with(choice)
}

#[cycle(closed)]
#[tactic(auto, unfolding(crate::specs::Closed::closed))]
fn closed_choice(
    alloc: Global,
    condition: &Arc<Cond>,
    yes: &Parts,
    no: &Parts,
    follow: &Follow,
    behind: Behind,
) -> Result<Behind, AllocError>
    ensures { IfOk result (λ b. b ≡ spec.closed_one (tree.Choice condition.now.value yes.now no.now) (spec.with_next follow.now behind)) }
{
    if keeps_to(GOES_ON, yes) && keeps_to(GOES_ON, no) {
        kept_choice(alloc, condition, yes, no, behind)
    } else {
        left_choice(alloc, condition, yes, no, follow, behind)
    }
}

/// A counted loop, and what comes behind it.
#[cycle(closed)]
#[tactic(auto, unfolding(crate::specs::Closed::closed))]
fn closed_count(
    alloc: Global,
    variable: Variable,
    count: &Arc<Expr>,
    limit: u64,
    body: &Parts,
    behind: Behind,
) -> Result<Behind, AllocError>
    ensures { IfOk result (λ b. b ≡ program.Then (program.For variable count.now.value limit (spec.closed body.now spec.nothing)) behind) }
{
    let nothing = nothing(alloc)?;
    let body = closed(alloc, body, &nothing)?;
    let count = count.clone()?;
    let node = StmtNode::For(variable, count, limit, body);
    behind.begun_with(Stmt { node })
}

/// The copies of a loop's block, and what comes behind them.
#[cycle(closed)]
#[tactic(auto, unfolding(crate::specs::Closed::closed))]
fn closed_items(alloc: Global, copies: &Copies, behind: Behind) -> Result<Behind, AllocError>
    ensures { IfOk result (λ b. b ≡ spec.items_behind copies.now behind) }
{
    if keep_to(in_copies(GOES_ON), copies) {
        let end = no_statements(alloc)?;
        let all = closed_copies(alloc, copies, &end)?;
        return behind.begun_with_all(alloc, &all);
    }
    let after = behind.into_block(alloc)?;
    let all = closed_copies(alloc, copies, &after)?;
    Ok(Behind::of(alloc, all))
}

/// A copy of a loop's block, and the copies behind it: what comes behind them all follows a `break`.
#[cycle(closed)]
fn closed_copy(
    alloc: Global,
    copy: &Parts,
    after: &Block,
    more: Behind,
) -> Result<Behind, AllocError>
    ensures { IfOk result (λ b. b ≡ spec.closed copy.now (spec.copy_follow more after.now)) }
{
    if keeps_to(GOES_ON, copy) {
        let nothing = nothing(alloc)?;
        return closed_list(alloc, copy, &nothing, more);
    }
    let next = more.into_block(alloc)?;
    let more = Behind::of(alloc, next.clone()?);
    let follow = copy_follow(next, after)?;
    closed_list(alloc, copy, &follow, more)
}

#[cycle(closed)]
fn closed_copies(alloc: Global, copies: &Copies, after: &Block) -> Result<Block, AllocError>
    ensures { IfOk result (λ b. b ≡ spec.closed_copies copies.now after.now) }
{
    let all: &Vec<Parts> = &copies.copies;
    let mut more = Behind::of(alloc, after.clone()?);
    for done in 0..all.len() {
        let place = all.len() - 1 - done;
        more = closed_copy(alloc, &all[place], after, more)?;
    }
    more.into_block(alloc)
}

/// A statement of a list, and what comes behind it.
#[cycle(closed)]
#[tactic(auto, unfolding(crate::specs::Closed::closed))]
fn closed_one(
    alloc: Global,
    part: &Part,
    follow: &Follow,
    behind: Behind,
) -> Result<Behind, AllocError>
    ensures { IfOk result (λ b. b ≡ spec.closed_one part.now (spec.with_next follow.now behind)) }
{
    match &part.node {
        PartNode::Plain(statement) => {
            let copy = statement.clone()?;
            behind.begun_with(copy)
        }
        PartNode::Choice(condition, yes, no) => {
            closed_choice(alloc, condition, yes, no, follow, behind)
        }
        PartNode::Items(copies) => closed_items(alloc, copies, behind),
        PartNode::Count(variable, count, limit, body) => {
            closed_count(alloc, *variable, count, *limit, body, behind)
        }
        PartNode::Return => {
            let end = no_statements(alloc)?;
            Ok(Behind::of(alloc, end))
        }
        PartNode::Break => {
            let broken = follow.broken.clone()?;
            Ok(Behind::of(alloc, broken))
        }
        PartNode::Continue => {
            let continued = follow.continued.clone()?;
            Ok(Behind::of(alloc, continued))
        }
    }
}

/// What comes behind the last statement of a list: nothing, where it has an `abort`.
fn behind_last(alloc: Global, has_abort: bool, behind: Behind) -> Result<Behind, AllocError>
    ensures { IfOk result (λ b. b ≡ spec.behind_last has_abort behind) }
{
    if has_abort {
        let end = no_statements(alloc)?;
        return Ok(Behind::of(alloc, end));
    }
    Ok(behind)
}

/// Statements of a list, from its end to its beginning, and what comes behind it.
#[cycle(closed)]
fn closed_list(
    alloc: Global,
    parts: &Parts,
    follow: &Follow,
    behind: Behind,
) -> Result<Behind, AllocError>
    ensures { IfOk result (λ b. b ≡ spec.closed parts.now (spec.with_next follow.now behind)) }
{
    let all: &Vec<Part> = &parts.parts;
    let ends = first_abort(all);
    let nothing = nothing(alloc)?;
    let mut more = behind_last(alloc, ends < all.len(), behind)?;
    for done in 0..all.len() {
        let place = all.len() - 1 - done;
        more = closed_one(
            alloc,
            &all[place],
            around(ends, place, follow, &nothing),
            more,
        )?;
    }
    Ok(more)
}

#[cycle(closed)]
fn closed(alloc: Global, parts: &Parts, follow: &Follow) -> Result<Block, AllocError>
    ensures { IfOk result (λ b. b ≡ spec.closed parts.now follow.now) }
{
    let next = Behind::of(alloc, follow.next.clone()?);
    let behind = closed_list(alloc, parts, follow, next)?;
    behind.into_block(alloc)
}

/// The statements of the program that statements of a source become, where nothing follows them. It fails only when out of memory.
pub fn closed_parts(alloc: Global, parts: &Parts) -> Result<Vec<Stmt>, AllocError>
    ensures { IfOk result (λ all. block_of all.items ≡ spec.closed parts.now spec.nothing) }
{
    let nothing = nothing(alloc)?;
    let end = no_statements(alloc)?;
    let behind = closed_list(alloc, parts, &nothing, Behind::of(alloc, end))?;
    behind.into_statements()
}
