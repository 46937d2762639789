//! The line of a recipe.
ghost use Rattle.std.specs.Prelude.{◌≡◌, false, IfOk, string_bytes};
ghost use Rattle.serde_json.specs.View.{view};
ghost use Rattle.serde_json.specs.Written.{has_float};
ghost use Rattle.stm_program.specs.Syntax.{of_statements};
ghost use Rattle.stm_program_json.specs.Writing.{written_program};
ghost use Rattle.stm_recipe_lines.specs.Lines.{Fits, statements_of, line_text, line_of};

use crate::recipe::Recipe;
use serde_json::Value as Json;
use std::alloc::{AllocError, Global};
use stm_program::Program;
use stm_program_json::write_program;
use stm_recipes::{deposit, dequeue, enqueue, release_slot, reserve_slot, transfer};

/// The program of a recipe.
fn program_of(alloc: Global, recipe: &Recipe<'_>) -> Result<Program, AllocError>
    requires { Fits recipe.now }
    ensures { IfOk result (λ program. program ≡ of_statements (statements_of recipe.now)) }
{
    match *recipe {
        Recipe::Transfer { from, to, amount } => transfer(alloc, from, to, amount),
        Recipe::Deposit { account, amount } => deposit(alloc, account, amount),
        Recipe::Enqueue { queue, item } => enqueue(alloc, queue, item),
        Recipe::Dequeue { queue } => dequeue(alloc, queue),
        Recipe::ReserveSlot {
            slot,
            holder,
            lease,
        } => reserve_slot(alloc, slot, holder, lease),
        Recipe::ReleaseSlot { slot, holder } => release_slot(alloc, slot, holder),
    }
}

/// The line of a value.
fn json_line(alloc: Global, value: &Json) -> Result<String, AllocError>
    requires { has_float (view value.now) ≡ false }
    ensures { IfOk result (λ line. string_bytes line ≡ line_text (view value.now)) }
{
    let mut line = value.to_string(alloc)?;
    line.push('\n')?;
    Ok(line)
}

/// The line of a program.
fn program_line(alloc: Global, program: &Program) -> Result<String, AllocError>
    ensures { IfOk result (λ line. string_bytes line ≡ line_text (written_program program.now)) }
{
    let value = write_program(alloc, program)?;
    let line = json_line(alloc, &value);
    drop(value);
    line
}

/// The line of a recipe: its program as compact JSON, in the one spelling that `write_program` gives, and a line feed.
///
/// The texts have 1 to 1024 bytes, and the lease is at most 9223372036854775807. It fails only where an allocation failed.
pub fn recipe_line(alloc: Global, recipe: &Recipe<'_>) -> Result<String, AllocError>
    requires { Fits recipe.now }
    ensures { IfOk result (λ line. string_bytes line ≡ line_of recipe.now) }
{
    let program = program_of(alloc, recipe)?;
    let line = program_line(alloc, &program);
    drop(program);
    line
}
