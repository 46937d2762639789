//! What statements do, or where they stop.
ghost use Rattle.std.specs.Prelude.{◌≤◌, [], ◌∷◌, IfOk};
ghost use Rattle.stm_history.specs.declared.revisions.TheConstants.{HIGHEST_NUMBER};
ghost use Rattle.stm_program.specs.BlockView.{block_of};
ghost use Rattle.stm_program.specs.Syntax as tree;
ghost use Rattle.stm_steps.specs.Meaning.{run_statement, run_block, repeat, aborts};
ghost use Rattle.stm_steps.specs.Outcome.{and_then, begin_turn, given};
ghost use Rattle.stm_steps.specs.Session.{Session as Progress};
ghost use Rattle.stm_steps.specs.Values.{del_of, put_of, text_in, turns_of};
ghost use Rattle.stm_steps.specs.declared.stop.Stop.TheVariants.{Aborted};
ghost use Rattle.stm_sites.specs.Sites.{statement_site, block_site, turns_site, here, inside};
ghost use Rattle.stm_sites.specs.declared.site.Node.TheVariants.{Loop, OfNumber, OfText};
ghost use Rattle.stm_sites.specs.Returns.{Returns, StopsAt, StopsBy, Computes};

use crate::conditions::part_met;
use crate::expressions::part_value;
use crate::halt::{Halt, fault_on_one, faulted, on_one, on_two, stop_on_one, within};
use crate::site::{Node, Site};
use std::alloc::Global;
use stm_program::{Block, Cond, Expr, Stmt, StmtNode, Variable, Write};
use stm_steps::{Lookup, Session, Stop, Text, Value, deletion, put, turns, wanted_text};

/// Gives a variable the value of an expression.
#[tactic(auto, unfolding(stm_steps::specs::Meaning::run_statement, crate::specs::Sites::statement_site))]
fn set_variable<L: Lookup>(
    alloc: Global,
    lookup: &L,
    session: &mut Session,
    variable: Variable,
    value: &Expr,
) -> Result<(), Halt>
    ensures reported { Returns result session.new (run_statement (L.answers lookup.now) (tree.Set variable value.now) session.old) }
    ensures site { StopsAt result (statement_site (L.answers lookup.now) (tree.Set variable value.now) session.old) }
{
    let value = part_value(alloc, lookup, session, 2, value)?;
    session.set(variable, value);
    Ok(())
}

/// The put of a key with a value.
fn put_of(alloc: Global, key: &Value, value: &Value, lease: u64) -> Result<Write, Halt>
    ensures { Computes OfText (key.now ∷ value.now ∷ []) (put_of key.now value.now lease) result }
{
    let computed = put(key, value, lease)?;
    on_two(alloc, Node::OfText, computed, key, value)
}

/// The deletion of a key.
fn deletion_of(alloc: Global, key: &Value) -> Result<Write, Halt>
    ensures { Computes OfText (key.now ∷ []) (del_of key.now) result }
{
    let computed = deletion(key)?;
    on_one(alloc, Node::OfText, computed, key)
}

/// Puts a key with a value.
#[tactic(auto, unfolding(stm_steps::specs::Meaning::run_statement, crate::specs::Sites::statement_site))]
fn put_key<L: Lookup>(
    alloc: Global,
    lookup: &L,
    session: &mut Session,
    key: &Expr,
    value: &Expr,
    lease: u64,
) -> Result<(), Halt>
    ensures reported { Returns result session.new (run_statement (L.answers lookup.now) (tree.Put key.now value.now lease) session.old) }
    ensures site { StopsAt result (statement_site (L.answers lookup.now) (tree.Put key.now value.now lease) session.old) }
{
    let key = part_value(alloc, lookup, session, 1, key)?;
    let value = match part_value(alloc, lookup, session, 2, value) {
        Ok(value) => value,
        Err(halt) => {
            drop(key);
            return Err(halt);
        }
    };
    let write = put_of(alloc, &key, &value, lease);
    drop(key);
    drop(value);
    Ok(session.write(write?)?)
}

/// Deletes a key.
#[tactic(auto, unfolding(stm_steps::specs::Meaning::run_statement, crate::specs::Sites::statement_site))]
fn delete_key<L: Lookup>(
    alloc: Global,
    lookup: &L,
    session: &mut Session,
    key: &Expr,
) -> Result<(), Halt>
    ensures reported { Returns result session.new (run_statement (L.answers lookup.now) (tree.Del key.now) session.old) }
    ensures site { StopsAt result (statement_site (L.answers lookup.now) (tree.Del key.now) session.old) }
{
    let key = part_value(alloc, lookup, session, 1, key)?;
    let write = deletion_of(alloc, &key);
    drop(key);
    Ok(session.write(write?)?)
}

/// Emits a value.
#[tactic(auto, unfolding(stm_steps::specs::Meaning::run_statement, crate::specs::Sites::statement_site))]
fn emit_value<L: Lookup>(
    alloc: Global,
    lookup: &L,
    session: &mut Session,
    value: &Expr,
) -> Result<(), Halt>
    ensures reported { Returns result session.new (run_statement (L.answers lookup.now) (tree.Emit value.now) session.old) }
    ensures site { StopsAt result (statement_site (L.answers lookup.now) (tree.Emit value.now) session.old) }
{
    let value = part_value(alloc, lookup, session, 1, value)?;
    Ok(session.emit(value)?)
}

/// The end of a run with a text, which is this value.
fn abort_at(alloc: Global, text: &Text, value: &Value) -> Result<(), Halt>
    ensures { StopsBy OfText (value.now ∷ []) (Aborted text.now) result }
{
    let text = text.clone()?;
    stop_on_one(alloc, Node::OfText, Stop::Aborted(text), value)
}

/// The end of a run with a value, which has to be a text.
fn abort_by(alloc: Global, value: &Value) -> Result<(), Halt>
    ensures reported { (s : Progress) → Returns result s (and_then (given (text_in value.now) s) aborts) }
    ensures site { StopsAt result (here OfText (value.now ∷ [])) }
{
    match wanted_text(value) {
        Ok(text) => abort_at(alloc, text, value),
        Err(fault) => fault_on_one(alloc, Node::OfText, fault, value),
    }
}

/// Ends the run with a text.
#[tactic(auto, unfolding(stm_steps::specs::Meaning::run_statement, crate::specs::Sites::statement_site))]
fn abort_with<L: Lookup>(
    alloc: Global,
    lookup: &L,
    session: &mut Session,
    text: &Expr,
) -> Result<(), Halt>
    ensures reported { Returns result session.new (run_statement (L.answers lookup.now) (tree.Abort text.now) session.old) }
    ensures site { StopsAt result (statement_site (L.answers lookup.now) (tree.Abort text.now) session.old) }
{
    let value = part_value(alloc, lookup, session, 1, text)?;
    let ended = abort_by(alloc, &value);
    drop(value);
    ended
}

/// How many turns a loop takes, whose count has this value.
fn count_turns(alloc: Global, count: &Value, limit: u64) -> Result<u64, Halt>
    ensures turns { Computes (Loop limit) (count.now ∷ []) (turns_of count.now limit) result }
    ensures in_range { IfOk result (λ n. n ≤ HIGHEST_NUMBER) }
{
    let count = on_one(alloc, Node::Loop(limit), turns(count, limit), count)?;
    Ok(count)
}

/// Counts a turn, and gives the variable of its loop the turn's number.
fn begin_turn(
    alloc: Global,
    session: &mut Session,
    variable: Variable,
    turn: u64,
) -> Result<(), Halt>
    requires { turn ≤ HIGHEST_NUMBER }
    ensures reported { Returns result session.new (begin_turn variable turn session.old) }
    ensures site { StopsAt result (here OfNumber []) }
{
    match session.begin_turn(variable, turn) {
        Ok(()) => Ok(()),
        Err(fault) => Err(faulted(fault, Site::bare(alloc, Node::OfNumber))),
    }
}

/// Runs a statement.
#[cycle(statements)]
#[tactic(auto, unfolding(stm_steps::specs::Meaning::run_statement, crate::specs::Sites::statement_site))]
fn run_one<L: Lookup>(
    alloc: Global,
    lookup: &L,
    session: &mut Session,
    statement: &Stmt,
) -> Result<(), Halt>
    ensures reported { Returns result session.new (run_statement (L.answers lookup.now) statement.now session.old) }
    ensures site { StopsAt result (statement_site (L.answers lookup.now) statement.now session.old) }
{
    match &statement.node {
        StmtNode::Set(variable, value) => set_variable(alloc, lookup, session, *variable, value),
        StmtNode::Put(key, value, lease) => put_key(alloc, lookup, session, key, value, *lease),
        StmtNode::Del(key) => delete_key(alloc, lookup, session, key),
        StmtNode::If(condition, then_block, else_block) => {
            run_choice(alloc, lookup, session, condition, then_block, else_block)
        }
        StmtNode::For(variable, count, limit, body) => {
            run_loop(alloc, lookup, session, *variable, count, *limit, body)
        }
        StmtNode::Emit(value) => emit_value(alloc, lookup, session, value),
        StmtNode::Abort(text) => abort_with(alloc, lookup, session, text),
    }
}

/// Runs one of two blocks.
#[cycle(statements)]
#[tactic(auto, unfolding(stm_steps::specs::Meaning::run_statement, crate::specs::Sites::statement_site))]
fn run_choice<L: Lookup>(
    alloc: Global,
    lookup: &L,
    session: &mut Session,
    condition: &Cond,
    then_block: &Block,
    else_block: &Block,
) -> Result<(), Halt>
    ensures reported { Returns result session.new (run_statement (L.answers lookup.now) (tree.If condition.now then_block.now else_block.now) session.old) }
    ensures site { StopsAt result (statement_site (L.answers lookup.now) (tree.If condition.now then_block.now else_block.now) session.old) }
{
    if part_met(alloc, lookup, session, 1, condition)? {
        return run_part(alloc, lookup, session, 2, then_block);
    }
    run_part(alloc, lookup, session, 3, else_block)
}

/// Runs a loop.
#[cycle(statements)]
#[tactic(auto, unfolding(stm_steps::specs::Meaning::run_statement, crate::specs::Sites::statement_site))]
fn run_loop<L: Lookup>(
    alloc: Global,
    lookup: &L,
    session: &mut Session,
    variable: Variable,
    count: &Expr,
    limit: u64,
    body: &Block,
) -> Result<(), Halt>
    ensures reported { Returns result session.new (run_statement (L.answers lookup.now) (tree.For variable count.now limit body.now) session.old) }
    ensures site { StopsAt result (statement_site (L.answers lookup.now) (tree.For variable count.now limit body.now) session.old) }
{
    let count = part_value(alloc, lookup, session, 2, count)?;
    let turns = count_turns(alloc, &count, limit);
    drop(count);
    run_turns(alloc, lookup, session, variable, turns?, body)
}

/// Runs the turns of a loop.
#[cycle(statements)]
#[tactic(auto, unfolding(stm_steps::specs::Meaning::repeat, crate::specs::Sites::turns_site))]
fn run_turns<L: Lookup>(
    alloc: Global,
    lookup: &L,
    session: &mut Session,
    variable: Variable,
    count: u64,
    body: &Block,
) -> Result<(), Halt>
    requires { count ≤ HIGHEST_NUMBER }
    ensures reported { Returns result session.new (repeat variable (run_block (L.answers lookup.now) body.now) count 0 session.old) }
    ensures site { StopsAt result (turns_site variable (run_block (L.answers lookup.now) body.now) (block_site (L.answers lookup.now) 0 body.now) count 0 session.old) }
{
    for turn in 0..count {
        begin_turn(alloc, session, variable, turn)?;
        run_part(alloc, lookup, session, 4, body)?;
    }
    Ok(())
}

/// Runs the block that is the part at an index of a statement.
#[cycle(statements)]
fn run_part<L: Lookup>(
    alloc: Global,
    lookup: &L,
    session: &mut Session,
    index: usize,
    block: &Block,
) -> Result<(), Halt>
    ensures reported { Returns result session.new (run_block (L.answers lookup.now) block.now session.old) }
    ensures site { StopsAt result (inside index (block_site (L.answers lookup.now) 0 block.now session.old)) }
{
    let statements: &Vec<Stmt> = &block.statements;
    let ran = run_all(alloc, lookup, session, statements);
    within(index, ran)?;
    Ok(())
}

/// Runs the statement at an index of a block.
#[cycle(statements)]
fn run_at<L: Lookup>(
    alloc: Global,
    lookup: &L,
    session: &mut Session,
    index: usize,
    statement: &Stmt,
) -> Result<(), Halt>
    ensures reported { Returns result session.new (run_statement (L.answers lookup.now) statement.now session.old) }
    ensures site { StopsAt result (inside index (statement_site (L.answers lookup.now) statement.now session.old)) }
{
    let ran = run_one(alloc, lookup, session, statement);
    within(index, ran)?;
    Ok(())
}

/// Runs the statements of a block.
#[cycle(statements)]
#[tactic(auto, unfolding(stm_steps::specs::Meaning::run_block, crate::specs::Sites::block_site), using(crate::proofs::BlockLemmas::item_weight))]
pub(crate) fn run_all<L: Lookup>(
    alloc: Global,
    lookup: &L,
    session: &mut Session,
    statements: &[Stmt],
) -> Result<(), Halt>
    ensures reported { Returns result session.new (run_block (L.answers lookup.now) (block_of statements.now) session.old) }
    ensures site { StopsAt result (block_site (L.answers lookup.now) 0 (block_of statements.now) session.old) }
{
    for (index, statement) in statements.iter().enumerate() {
        run_at(alloc, lookup, session, index, statement)?;
    }
    Ok(())
}
