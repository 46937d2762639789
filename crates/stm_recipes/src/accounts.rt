//! Accounts: keys whose values are numbers.
ghost use Rattle.std.specs.Prelude.{◌≡◌, [], ◌∷◌, IfOk, OnOk};
ghost use Rattle.stm_program.specs.Syntax.{of_statements};
ghost use Rattle.stm_recipes.specs.Accounts as recipe;
ghost use Rattle.stm_recipes.specs.Names.{IsName};

use crate::counters::{put_sum, read_text, zero_if_empty};
use crate::nodes::{
    abort, arithmetic, block, get, less, no_block, num_of, number, put, set, text, text_of,
    variable, when,
};
use std::alloc::{AllocError, Global};
use stm_program::{Operator, Program, Stmt};

/// The program that moves an amount from one account to another. Both may be one account, whose number then stays the same.
///
/// Where the first account has less than the amount, the run aborts with `insufficient`. Where an account is absent or no
/// number, it ends with the fault `NotANumber`; where the second one's number would not fit in 64 bits, with `Overflow`.
///
/// A name has 1 to 1024 bytes. It fails only when out of memory.
#[tactic(auto, unfolding(crate::specs::Accounts::transfer_program))]
pub fn transfer(alloc: Global, from: &str, to: &str, amount: u32) -> Result<Program, AllocError>
    requires from { IsName from.now }
    requires to { IsName to.now }
    ensures { IfOk result (λ program. program ≡ of_statements (recipe.transfer_program from.now to.now amount)) }
{
    let mut statements = Vec::new(alloc);
    push_transfer(alloc, &mut statements, from, to, amount)?;
    Ok(Program::of(statements))
}

/// The program that adds an amount to an account, and makes the account where it is absent. An empty value counts as 0 too.
///
/// Where the account has another value that is no number, the run ends with the fault `NotANumber`; where its number would
/// not fit in 64 bits, with `Overflow`. Then it writes nothing.
///
/// A name has 1 to 1024 bytes. It fails only when out of memory.
#[tactic(auto, unfolding(crate::specs::Accounts::deposit_program))]
pub fn deposit(alloc: Global, account: &str, amount: u32) -> Result<Program, AllocError>
    requires { IsName account.now }
    ensures { IfOk result (λ program. program ≡ of_statements (recipe.deposit_program account.now amount)) }
{
    let mut statements = Vec::new(alloc);
    push_deposit(alloc, &mut statements, account, amount)?;
    Ok(Program::of(statements))
}

/// The statements of a transfer.
fn push_transfer(
    alloc: Global,
    statements: &mut Vec<Stmt>,
    from: &str,
    to: &str,
    amount: u32,
) -> Result<(), AllocError>
    requires { statements.old.items ≡ [] }
    ensures { OnOk result (statements.new.items ≡
        recipe.read_balance from.now ∷ recipe.refuse_below amount ∷ recipe.withdraw from.now amount ∷ recipe.pay to.now amount ∷ []) }
{
    statements.push(read_balance(alloc, from)?)?;
    statements.push(refuse_below(alloc, amount)?)?;
    statements.push(withdraw(alloc, from, amount)?)?;
    statements.push(pay(alloc, to, amount)?)?;
    Ok(())
}

/// The statements of a deposit.
fn push_deposit(
    alloc: Global,
    statements: &mut Vec<Stmt>,
    account: &str,
    amount: u32,
) -> Result<(), AllocError>
    requires { statements.old.items ≡ [] }
    ensures { OnOk result (statements.new.items ≡ recipe.read_text 0 account.now ∷ recipe.zero_if_empty 0 ∷ recipe.put_sum account.now amount ∷ []) }
{
    statements.push(read_text(alloc, 0, account)?)?;
    statements.push(zero_if_empty(alloc, 0)?)?;
    statements.push(put_sum(alloc, account, amount)?)?;
    Ok(())
}

fn read_balance(alloc: Global, from: &str) -> Result<Stmt, AllocError>
    ensures { IfOk result (λ s. s ≡ recipe.read_balance from.now) }
{
    let key = text(alloc, from)?;
    let held = get(alloc, key)?;
    let balance = num_of(alloc, held)?;
    Ok(set(0, balance))
}

fn refuse_below(alloc: Global, amount: u32) -> Result<Stmt, AllocError>
    ensures { IfOk result (λ s. s ≡ recipe.refuse_below amount) }
{
    let balance = variable(alloc, 0)?;
    let amount = number(alloc, amount)?;
    let condition = less(alloc, balance, amount)?;
    let refuse = abort(alloc, "insufficient")?;
    let yes = block(alloc, refuse)?;
    let no = no_block(alloc)?;
    Ok(when(condition, yes, no))
}

fn withdraw(alloc: Global, from: &str, amount: u32) -> Result<Stmt, AllocError>
    ensures { IfOk result (λ s. s ≡ recipe.withdraw from.now amount) }
{
    let balance = variable(alloc, 0)?;
    let amount = number(alloc, amount)?;
    let rest = arithmetic(alloc, Operator::Sub, balance, amount)?;
    let rest = text_of(alloc, rest)?;
    let key = text(alloc, from)?;
    Ok(put(key, rest, 0))
}

fn pay(alloc: Global, to: &str, amount: u32) -> Result<Stmt, AllocError>
    ensures { IfOk result (λ s. s ≡ recipe.pay to.now amount) }
{
    let key = text(alloc, to)?;
    let held = get(alloc, key)?;
    let balance = num_of(alloc, held)?;
    let amount = number(alloc, amount)?;
    let sum = arithmetic(alloc, Operator::Add, balance, amount)?;
    let sum = text_of(alloc, sum)?;
    let key = text(alloc, to)?;
    Ok(put(key, sum, 0))
}
