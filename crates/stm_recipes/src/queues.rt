//! Queues: items under the numbers from a head up to a tail.
ghost use Rattle.std.specs.Prelude.{◌≡◌, [], ◌∷◌, ◌++◌, ◌≤◌, IfOk, OnOk};
ghost use Rattle.stm_program.specs.Syntax.{of_statements};
ghost use Rattle.stm_program.specs.declared.limits.TheConstants.{MAX_VARIABLE};
ghost use Rattle.stm_recipes.specs.Accounts as counter;
ghost use Rattle.stm_recipes.specs.Names.{IsName, head_key, tail_key};
ghost use Rattle.stm_recipes.specs.Queues as recipe;

use crate::counters::{put_sum, read_text, zero_if_empty};
use crate::names::joined;
use crate::nodes::{
    abort, block, cat, del, emit, equal, get, no_block, put, set, text, variable, when,
};
use std::alloc::{AllocError, Global};
use std::sync::Arc;
use stm_program::{Expr, Program, Stmt};

/// The program that adds an item at the end of a queue: under the queue's name, `/` and the tail's number. The tail, under
/// the queue's name and `/tail`, is raised by one. A tail that is absent or empty counts as 0.
///
/// Where the tail is no number, the run ends with the fault `NotANumber`; where it can't be raised by one, with `Overflow`;
/// where the item's key would have more than 65536 bytes, with `TextTooLong`.
///
/// The queue's name and the item have 1 to 1024 bytes. It fails only when out of memory.
#[tactic(auto, unfolding(crate::specs::Queues::enqueue_program))]
pub fn enqueue(alloc: Global, queue: &str, item: &str) -> Result<Program, AllocError>
    requires queue { IsName queue.now }
    requires item { IsName item.now }
    ensures { IfOk result (λ program. program ≡ of_statements (recipe.enqueue_program queue.now item.now)) }
{
    let tail = joined(alloc, queue, "/tail")?;
    let mut statements = Vec::new(alloc);
    push_enqueue(alloc, &mut statements, queue, tail.as_str(), item)?;
    Ok(Program::of(statements))
}

/// The program that takes the first item of a queue: it emits the item and deletes it. The head, under the queue's name and
/// `/head`, is raised by one. A head or a tail that is absent or empty counts as 0.
///
/// Where head and tail are the same text, the run aborts with `empty`. Where the head is no number, it ends with the fault
/// `NotANumber`; where it can't be raised by one, with `Overflow`; where the item's key would have more than 65536 bytes, with
/// `TextTooLong`.
///
/// The queue's name has 1 to 1024 bytes. It fails only when out of memory.
#[tactic(auto, unfolding(crate::specs::Queues::dequeue_program))]
pub fn dequeue(alloc: Global, queue: &str) -> Result<Program, AllocError>
    requires { IsName queue.now }
    ensures { IfOk result (λ program. program ≡ of_statements (recipe.dequeue_program queue.now)) }
{
    let mut statements = Vec::new(alloc);
    push_ends(alloc, &mut statements, queue)?;
    push_dequeue(alloc, &mut statements, queue)?;
    Ok(Program::of(statements))
}

/// The statements of an enqueue.
fn push_enqueue(
    alloc: Global,
    statements: &mut Vec<Stmt>,
    queue: &str,
    tail: &str,
    item: &str,
) -> Result<(), AllocError>
    requires { statements.old.items ≡ [] }
    ensures { OnOk result (statements.new.items ≡
        counter.read_text 0 tail.now ∷ counter.zero_if_empty 0 ∷ recipe.put_item queue.now item.now ∷ counter.put_sum tail.now 1 ∷ []) }
{
    statements.push(read_text(alloc, 0, tail)?)?;
    statements.push(zero_if_empty(alloc, 0)?)?;
    statements.push(put_item(alloc, queue, item)?)?;
    statements.push(put_sum(alloc, tail, 1)?)?;
    Ok(())
}

/// Reads head and tail into the first two variables.
fn push_ends(alloc: Global, statements: &mut Vec<Stmt>, queue: &str) -> Result<(), AllocError>
    requires { statements.old.items ≡ [] }
    ensures { OnOk result (statements.new.items ≡
        counter.read_text 0 (head_key queue.now) ∷ counter.zero_if_empty 0 ∷ counter.read_text 1 (tail_key queue.now) ∷ counter.zero_if_empty 1 ∷ []) }
{
    statements.push(read_end(alloc, 0, queue, "/head")?)?;
    statements.push(zero_if_empty(alloc, 0)?)?;
    statements.push(read_end(alloc, 1, queue, "/tail")?)?;
    statements.push(zero_if_empty(alloc, 1)?)?;
    Ok(())
}

/// The statements of a dequeue after those of head and tail.
fn push_dequeue(alloc: Global, statements: &mut Vec<Stmt>, queue: &str) -> Result<(), AllocError>
    ensures { OnOk result (statements.new.items ≡ statements.old.items ++
        (recipe.refuse_empty ∷ recipe.name_item queue.now ∷ recipe.emit_item ∷ recipe.delete_item ∷ counter.put_sum (head_key queue.now) 1 ∷ [])) }
{
    statements.push(refuse_empty(alloc)?)?;
    statements.push(name_item(alloc, queue)?)?;
    statements.push(emit_item(alloc)?)?;
    statements.push(delete_item(alloc)?)?;
    statements.push(advance_head(alloc, queue)?)?;
    Ok(())
}

/// Reads head or tail into a variable.
fn read_end(alloc: Global, place: u8, queue: &str, end: &str) -> Result<Stmt, AllocError>
    requires { place ≤ MAX_VARIABLE }
    ensures { IfOk result (λ s. s ≡ counter.read_text place (queue.now ++ end.now)) }
{
    let key = joined(alloc, queue, end)?;
    let read = read_text(alloc, place, key.as_str())?;
    Ok(read)
}

fn advance_head(alloc: Global, queue: &str) -> Result<Stmt, AllocError>
    ensures { IfOk result (λ s. s ≡ counter.put_sum (head_key queue.now) 1) }
{
    let head = joined(alloc, queue, "/head")?;
    let next = put_sum(alloc, head.as_str(), 1)?;
    Ok(next)
}

/// The key of the item whose number was read.
fn item_place(alloc: Global, queue: &str) -> Result<Arc<Expr>, AllocError>
    ensures { IfOk result (λ e. e.value ≡ recipe.item_place queue.now) }
{
    let items = joined(alloc, queue, "/")?;
    let items = text(alloc, items.as_str())?;
    let number = variable(alloc, 0)?;
    let place = cat(alloc, items, number)?;
    Ok(place)
}

fn put_item(alloc: Global, queue: &str, item: &str) -> Result<Stmt, AllocError>
    ensures { IfOk result (λ s. s ≡ recipe.put_item queue.now item.now) }
{
    let place = item_place(alloc, queue)?;
    let item = text(alloc, item)?;
    Ok(put(place, item, 0))
}

fn refuse_empty(alloc: Global) -> Result<Stmt, AllocError>
    ensures { IfOk result (λ s. s ≡ recipe.refuse_empty) }
{
    let head = variable(alloc, 0)?;
    let tail = variable(alloc, 1)?;
    let condition = equal(alloc, head, tail)?;
    let refuse = abort(alloc, "empty")?;
    let yes = block(alloc, refuse)?;
    let no = no_block(alloc)?;
    Ok(when(condition, yes, no))
}

fn name_item(alloc: Global, queue: &str) -> Result<Stmt, AllocError>
    ensures { IfOk result (λ s. s ≡ recipe.name_item queue.now) }
{
    let place = item_place(alloc, queue)?;
    Ok(set(2, place))
}

fn emit_item(alloc: Global) -> Result<Stmt, AllocError>
    ensures { IfOk result (λ s. s ≡ recipe.emit_item) }
{
    let place = variable(alloc, 2)?;
    let item = get(alloc, place)?;
    Ok(emit(item))
}

fn delete_item(alloc: Global) -> Result<Stmt, AllocError>
    ensures { IfOk result (λ s. s ≡ recipe.delete_item) }
{
    let place = variable(alloc, 2)?;
    Ok(del(place))
}
