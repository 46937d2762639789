//! Writing programs.
ghost use Rattle.std.specs.Prelude.{◌≡◌, Ok as OkOf, IfOk};
ghost use Rattle.serde_json.specs.View.{view};
ghost use Rattle.stm_program_json.specs.Grammar.{SpellsProgram};
ghost use Rattle.stm_program_json.specs.Reading.{program_of};
ghost use Rattle.stm_program_json.specs.Writing.{written_program};

mod arrays;
mod expressions;
mod list;
mod statements;

use serde_json::Value;
use std::alloc::{AllocError, Global};
use stm_program::Program;

/// The one spelling of a program as a JSON value: its list comes first, where it has keys. Reading it gives the program again.
pub fn write_program(alloc: Global, program: &Program) -> Result<Value, AllocError>
    ensures exact { IfOk result (λ v. view v ≡ written_program program.now) }
    ensures spells { IfOk result (λ v. SpellsProgram (view v) program.now) }
    ensures reads_back { IfOk result (λ v. program_of (view v) ≡ OkOf program.now) }
{
    list::program_value(alloc, program.prefetch(), program.statements())
}
