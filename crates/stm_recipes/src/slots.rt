//! Slots: keys that one holder at a time may have.
ghost use Rattle.std.specs.Prelude.{◌≡◌, ◌≤◌, IfOk};
ghost use Rattle.stm_program.specs.Syntax.{of_statements};
ghost use Rattle.stm_program.specs.declared.limits.TheConstants.{MAX_LEASE};
ghost use Rattle.stm_recipes.specs.Names.{IsName};
ghost use Rattle.stm_recipes.specs.Slots as recipe;

use crate::nodes::{abort, block, del, equal, get, no_block, number, put, rev, text, when};
use std::alloc::{AllocError, Global};
use stm_program::{Program, Stmt};

/// The program that gives a free slot to a holder, on a lease (0 for none), so that the slot is free again when the lease
/// ends. Where the slot is held, the run aborts with `held`.
///
/// The slot's name and the holder have 1 to 1024 bytes, and the lease is at most 9223372036854775807. It fails only when
/// out of memory.
#[tactic(auto, unfolding(crate::specs::Slots::reserve_program))]
pub fn reserve_slot(
    alloc: Global,
    slot: &str,
    holder: &str,
    lease: u64,
) -> Result<Program, AllocError>
    requires slot { IsName slot.now }
    requires holder { IsName holder.now }
    requires lease { lease ≤ MAX_LEASE }
    ensures { IfOk result (λ program. program ≡ of_statements (recipe.reserve_program slot.now holder.now lease)) }
{
    let refuse = refuse_held(alloc, slot)?;
    let hold = hold(alloc, slot, holder, lease)?;
    let statements = vec![in alloc; refuse, hold]?;
    Ok(Program::of(statements))
}

/// The program that frees a slot of its holder. Where the slot is free or another one holds it, the run aborts with
/// `not held`.
///
/// The slot's name and the holder have 1 to 1024 bytes. It fails only when out of memory.
#[tactic(auto, unfolding(crate::specs::Slots::release_program))]
pub fn release_slot(alloc: Global, slot: &str, holder: &str) -> Result<Program, AllocError>
    requires slot { IsName slot.now }
    requires holder { IsName holder.now }
    ensures { IfOk result (λ program. program ≡ of_statements (recipe.release_program slot.now holder.now)) }
{
    let go = let_go(alloc, slot, holder)?;
    let statements = vec![in alloc; go]?;
    Ok(Program::of(statements))
}

fn refuse_held(alloc: Global, slot: &str) -> Result<Stmt, AllocError>
    ensures { IfOk result (λ s. s ≡ recipe.refuse_held slot.now) }
{
    let slot = text(alloc, slot)?;
    let revision = rev(alloc, slot)?;
    let absent = number(alloc, 0)?;
    let condition = equal(alloc, revision, absent)?;
    let yes = no_block(alloc)?;
    let refuse = abort(alloc, "held")?;
    let no = block(alloc, refuse)?;
    Ok(when(condition, yes, no))
}

fn hold(alloc: Global, slot: &str, holder: &str, lease: u64) -> Result<Stmt, AllocError>
    ensures { IfOk result (λ s. s ≡ recipe.hold slot.now holder.now lease) }
{
    let slot = text(alloc, slot)?;
    let holder = text(alloc, holder)?;
    Ok(put(slot, holder, lease))
}

fn let_go(alloc: Global, slot: &str, holder: &str) -> Result<Stmt, AllocError>
    ensures { IfOk result (λ s. s ≡ recipe.let_go slot.now holder.now) }
{
    let key = text(alloc, slot)?;
    let held = get(alloc, key)?;
    let holder = text(alloc, holder)?;
    let condition = equal(alloc, held, holder)?;
    let key = text(alloc, slot)?;
    let yes = block(alloc, del(key))?;
    let refuse = abort(alloc, "not held")?;
    let no = block(alloc, refuse)?;
    Ok(when(condition, yes, no))
}
