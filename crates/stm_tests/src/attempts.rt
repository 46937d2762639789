//! Attempts of the program that emits "a", which are given some answer for it.
ghost use Rattle.std.specs.Prelude.{◌≡◌, ◌≤◌, IfOk};
ghost use Rattle.stm_outcome.specs.Numbers.{ReadFits};
ghost use Rattle.stm_attempt.specs.AttemptState.{IsOf, awaited};
ghost use Rattle.stm_attempt.specs.Next.{key_asked};

use serde_json::Value as Json;
use std::alloc::{AllocError, Global};
use std::test::Fail;
use stm_attempt::{Attempt, Next};
use stm_history::{KeyState, ReadAnswer, Text};
use stm_program::{Level, Program};
use stm_program_json::read_program;

fn program_of(alloc: Global, value: &Json) -> Result<Program, Fail> {
    let program = read_program(alloc, value)?;
    Ok(program)
}

/// The program of a text.
pub(crate) fn program(alloc: Global, text: &str) -> Result<Program, Fail> {
    let value = Json::from_str(alloc, text)?;
    let program = program_of(alloc, &value);
    drop(value);
    program
}

/// An answer of a key at revision 2, with this value and modification revision.
fn answer(alloc: Global, key: &Text, value: &str, mod_rev: u64) -> Result<ReadAnswer, AllocError>
    requires { mod_rev ≤ 2 }
    ensures named { IfOk result (λ answer. answer.key ≡ key.now) }
    ensures in_range { IfOk result ReadFits }
{
    let key = Text::copy_of(alloc, key.as_str())?;
    let value = Text::copy_of(alloc, value)?;
    Ok(ReadAnswer {
        key,
        kv: Some(KeyState {
            value,
            create_rev: mod_rev,
            mod_rev,
            version: 1,
            lease: 0,
        }),
        of_rev: 2,
        revision: 2,
    })
}

/// What an attempt comes to once it has taken this value and modification revision of the key that it asked for.
fn supplied(
    alloc: Global,
    program: &Program,
    attempt: &mut Attempt,
    asked: &Next,
    value: &str,
    mod_rev: u64,
) -> Result<Next, AllocError>
    requires of { IsOf program.now attempt.old }
    requires asked { awaited attempt.old ≡ key_asked asked.now }
    requires bounded { mod_rev ≤ 2 }
{
    let Next::Fetch { key, .. } = asked else {
        return attempt.advance(program);
    };
    let answer = answer(alloc, key, value, mod_rev)?;
    attempt.supply(answer)?;
    attempt.advance(program)
}

/// The same, of an attempt that has not begun.
fn advanced(
    alloc: Global,
    program: &Program,
    attempt: &mut Attempt,
    value: &str,
    mod_rev: u64,
) -> Result<Next, AllocError>
    requires of { IsOf program.now attempt.old }
    requires bounded { mod_rev ≤ 2 }
{
    let asked = attempt.advance(program)?;
    let next = supplied(alloc, program, attempt, &asked, value, mod_rev);
    drop(asked);
    next
}

/// The same, of an attempt of its own.
pub(crate) fn attempted(
    alloc: Global,
    program: &Program,
    value: &str,
    mod_rev: u64,
) -> Result<Next, AllocError>
    requires { mod_rev ≤ 2 }
{
    let mut attempt = Attempt::new(alloc, Level::Serializable);
    let next = advanced(alloc, program, &mut attempt, value, mod_rev);
    drop(attempt);
    next
}
