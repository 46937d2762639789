//! Programs.
ghost use Rattle.std.specs.Prelude.{◌≡◌, ◌++◌, [], ◌∷◌, ◌≤◌, ◌+◌, map, IfOk, OnOk, string_bytes, codes};
ghost use Rattle.json.specs.Print.{quoted};
ghost use Rattle.stm_program.specs.BlockView.{block_of};
ghost use Rattle.stm_program.specs.Size.{block_nodes};
ghost use Rattle.stm_program_source.specs.Texts.{joined, separated, call, braced, lines};
ghost use Rattle.stm_program_source.specs.Program.{shown_list, shown_body, shown_program};
ghost use Rattle.stm_program_source.specs.Statements.{shown_statements};

use crate::statements::{push_block, push_lines};
use crate::text::{push_next_line, push_quoted};
use std::alloc::{AllocError, Global};
use stm_program::{Program, Stmt};

/// Adds keys, each after a comma.
fn push_more_keys(alloc: Global, out: &mut String, keys: &[String]) -> Result<(), AllocError>
    ensures { OnOk result (string_bytes out.new ≡ string_bytes out.old
        ++ joined (map (λ u. codes ", " ++ u) (map quoted (map string_bytes keys.now)))) }
{
    for key in keys {
        out.push_str(", ")?;
        push_quoted(alloc, out, key.as_str())?;
    }
    Ok(())
}

/// Adds a list of a first key and of others.
fn push_list(
    alloc: Global,
    out: &mut String,
    first: &String,
    rest: &[String],
) -> Result<(), AllocError>
    ensures { OnOk result (string_bytes out.new ≡ string_bytes out.old
        ++ call (codes "prefetch") (separated (codes ", ") (map quoted (string_bytes first.now ∷ map string_bytes rest.now)))) }
{
    out.push_str("prefetch(")?;
    push_quoted(alloc, out, first.as_str())?;
    push_more_keys(alloc, out, rest)?;
    out.push(')')
}

/// Adds a body that begins with a list.
fn push_listed(
    alloc: Global,
    out: &mut String,
    first: &String,
    rest: &[String],
    statements: &[Stmt],
) -> Result<(), AllocError>
    requires { 1 + block_nodes (block_of statements.now) ≤ usize.MAX }
    ensures { OnOk result (string_bytes out.new ≡ string_bytes out.old
        ++ braced 0 (shown_list (string_bytes first.now ∷ map string_bytes rest.now) ++ shown_statements 1 (block_of statements.now))) }
{
    out.push('{')?;
    push_next_line(out, 1)?;
    push_list(alloc, out, first, rest)?;
    push_lines(alloc, out, 1, statements)?;
    push_next_line(out, 0)?;
    out.push('}')
}

/// Adds a program as the body of a start: its list and its statements in braces, each on a line of its own. It fails where an allocation
/// failed.
pub fn push_body(alloc: Global, out: &mut String, program: &Program) -> Result<(), AllocError>
    ensures { OnOk result (string_bytes out.new ≡ string_bytes out.old ++ shown_body program.now) }
{
    match program.prefetch().split_first() {
        Some((first, rest)) => push_listed(alloc, out, first, rest, program.statements()),
        None => push_block(alloc, out, 0, program.statements()),
    }
}

/// The source of a program: its body, and a line feed. It fails where an allocation failed.
pub fn program_source(alloc: Global, program: &Program) -> Result<String, AllocError>
    ensures { IfOk result (λ text. string_bytes text ≡ shown_program program.now) }
{
    let mut out = String::new(alloc);
    push_body(alloc, &mut out, program)?;
    out.push('\n')?;
    Ok(out)
}
