//! Reading programs.
ghost use Rattle.std.specs.Prelude.{◌≡◌, ◌≤◌, Ok as OkOf, None, Some, IfOk, MatchResult};
ghost use Rattle.serde_json.specs.Data.{Items};
ghost use Rattle.serde_json.specs.View.{view, items_view};
ghost use Rattle.stm_program_json.specs.FirstFault.{first_fault};
ghost use Rattle.stm_json.specs.Faults.{IsFirstFault};
ghost use Rattle.stm_program_json.specs.Grammar.{SpellsProgram};
ghost use Rattle.stm_program.specs.Limits.{Fits};
ghost use Rattle.stm_json.specs.Returns.{Returns};
ghost use Rattle.stm_program_json.specs.Reading.{first_statement, program_after, program_of};

mod conditions;
mod expressions;
mod list;
mod statements;

use serde_json::Value;
use std::alloc::Global;
use stm_json::{Cause, ReadError, fault};
use stm_program::{MAX_DEPTH, MAX_NODES, Program};

/// The program that a JSON value spells, or the first fault.
///
/// A program is an array of statements, whose first element may be `["prefetch",[KEY..]]` with up to 128 keys of 1 to 65536 bytes, none
/// twice: its list, which is no node. The value is read in order, a value before its elements and
/// these from the first to the last; at a node the depth is checked first, then the number of nodes,
/// then the shape, and then the elements. `Bad` is the first fault, with its place in the value.
/// `OutOfMemory` may come in place of any other answer, where an allocation failed.
pub fn read_program(alloc: Global, value: &Value) -> Result<Program, ReadError>
    ensures exact { Returns (λ p. p) result (program_of (view value.now)) }
    // What is read is spelled so.
    ensures spelled { IfOk result (SpellsProgram (view value.now)) }
    // A program within the limits that is spelled so is read.
    ensures accepts { (p : _) → SpellsProgram (view value.now) p → Fits p → Returns (λ q. q) result (OkOf p) }
    // Which fault it is.
    ensures faults { MatchResult result (λ p. first_fault (view value.now) ≡ None) (IsFirstFault (first_fault (view value.now))) }
{
    program(alloc, value)
}

/// The index of the first statement of a program among the elements of the array that spells it: 1 after a list, also after one of no keys,
/// else 0.
pub fn first_statement(value: &Value) -> usize
    ensures is { result ≡ first_statement (view value.now) }
    ensures least { result ≤ 1 }
{
    let Some(values) = value.as_array() else {
        return 0;
    };
    let Some((first, _)) = values.split_first() else {
        return 0;
    };
    match list::list_parts(first) {
        Some(_) => 1,
        None => 0,
    }
}

/// The program of the list that these parts spell, the elements after its word, and of the statements that follow it.
fn program_after_list(alloc: Global, parts: &[Value], rest: &[Value]) -> Result<Program, ReadError>
    ensures { (all : Items) → Returns (λ p. p) result (program_after (Some (items_view parts.now)) all (items_view rest.now)) }
{
    let keys = list::list_part(alloc, parts)?;
    let (statements, _left) = statements::statement_list(alloc, rest, 1, MAX_DEPTH, MAX_NODES)?;
    // Its copies share it.
    let program = Program::with_list(keys, statements).share(alloc)?;
    Ok(program)
}

/// The program of statements.
fn program_alone(alloc: Global, values: &[Value]) -> Result<Program, ReadError>
    ensures { (rest : Items) → Returns (λ p. p) result (program_after None (items_view values.now) rest) }
{
    let (statements, _left) = statements::statement_list(alloc, values, 0, MAX_DEPTH, MAX_NODES)?;
    let program = Program::of(statements).share(alloc)?;
    Ok(program)
}

#[tactic(auto, unfolding(crate::specs::Reading::program_of))]
fn program(alloc: Global, value: &Value) -> Result<Program, ReadError>
    ensures { Returns (λ p. p) result (program_of (view value.now)) }
{
    let Some(values) = value.as_array() else {
        return Err(fault(alloc, Cause::Shape));
    };
    let Some((first, rest)) = values.split_first() else {
        return Ok(Program::of(Vec::new(alloc)));
    };
    match list::list_parts(first) {
        Some(parts) => program_after_list(alloc, parts, rest),
        None => program_alone(alloc, values.as_slice()),
    }
}
