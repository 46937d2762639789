//! Another client's transaction.
ghost use Rattle.std.specs.Prelude.{◌≡◌, ◌++◌, ◌∷◌, OnOk, string_bytes, codes, map};
ghost use Rattle.stm_texts.specs.Writing.{target_text};
ghost use Rattle.stm_program_source.specs.Texts.{filled, joined, lines};
ghost use Rattle.stm_outcome.specs.declared.txn.Op.TheVariants.{Get, Put};
ghost use Rattle.stm_show.specs.Transactions.{shown_order, shown_side, shown_compare, shown_operation, shown_compares, shown_operations, shown_failure, shown_txn};

use std::alloc::{AllocError, Global};
use stm_outcome::{Compare, Op, Order, Target, Txn};
use stm_program_source::{push_last_number, push_next_line, push_number, push_quoted};

/// The word of what a compare looks at.
fn target_word(target: &Target) -> &'static str
    ensures { result.now ≡ target_text target.now }
{
    match target {
        Target::Version(_) => "version",
        Target::Create(_) => "create",
        Target::Mod(_) => "mod",
        Target::Lease(_) => "lease",
        Target::Value(_) => "value",
    }
}

/// The sign of an order, between spaces.
fn sign(order: Order) -> &'static str
    ensures { result.now ≡ shown_order order }
{
    match order {
        Order::Equal => " == ",
        Order::NotEqual => " != ",
        Order::Greater => " > ",
        Order::Less => " < ",
    }
}

/// Adds the compare's side.
fn push_side(alloc: Global, out: &mut String, target: &Target) -> Result<(), AllocError>
    ensures { OnOk result (string_bytes out.new ≡ string_bytes out.old ++ shown_side target.now) }
{
    match target {
        Target::Version(n) | Target::Create(n) | Target::Mod(n) | Target::Lease(n) => {
            push_number(out, *n)
        }
        Target::Value(text) => push_quoted(alloc, out, text.as_str()),
    }
}

/// Adds a compare.
fn push_compare(alloc: Global, out: &mut String, compare: &Compare) -> Result<(), AllocError>
    ensures { OnOk result (string_bytes out.new ≡ string_bytes out.old ++ shown_compare compare.now) }
{
    out.push_str(target_word(&compare.target))?;
    out.push('(')?;
    push_quoted(alloc, out, compare.key.as_str())?;
    out.push(')')?;
    out.push_str(sign(compare.order))?;
    push_side(alloc, out, &compare.target)
}

/// Adds compares, each after a `&&`.
fn push_more_compares(
    alloc: Global,
    out: &mut String,
    compares: &[Compare],
) -> Result<(), AllocError>
    ensures { OnOk result (string_bytes out.new ≡ string_bytes out.old
        ++ joined (map (λ u. codes " && " ++ u) (map shown_compare compares.now))) }
{
    for compare in compares {
        out.push_str(" && ")?;
        push_compare(alloc, out, compare)?;
    }
    Ok(())
}

/// Adds a first compare and others.
fn push_some_compares(
    alloc: Global,
    out: &mut String,
    first: &Compare,
    rest: &[Compare],
) -> Result<(), AllocError>
    ensures { OnOk result (string_bytes out.new ≡ string_bytes out.old ++ shown_compares (first.now ∷ rest.now)) }
{
    out.push_str("if ")?;
    push_compare(alloc, out, first)?;
    push_more_compares(alloc, out, rest)?;
    out.push(' ')
}

/// Adds compares as `if .. && .. `, where there are some. It fails where an allocation failed.
pub fn push_compares(
    alloc: Global,
    out: &mut String,
    compares: &[Compare],
) -> Result<(), AllocError>
    ensures { OnOk result (string_bytes out.new ≡ string_bytes out.old ++ shown_compares compares.now) }
{
    match compares.split_first() {
        Some((first, rest)) => push_some_compares(alloc, out, first, rest),
        None => Ok(()),
    }
}

/// Adds a read of an operation list.
fn push_get(alloc: Global, out: &mut String, key: &str, rev: u64) -> Result<(), AllocError>
    ensures { OnOk result (string_bytes out.new ≡ string_bytes out.old ++ shown_operation (Get key.now rev)) }
{
    out.push_str("get(")?;
    push_quoted(alloc, out, key)?;
    push_last_number(out, rev)?;
    out.push(')')
}

/// Adds a put of an operation list.
fn push_put(
    alloc: Global,
    out: &mut String,
    key: &str,
    value: &str,
    lease: u64,
) -> Result<(), AllocError>
    ensures { OnOk result (string_bytes out.new ≡ string_bytes out.old ++ shown_operation (Put key.now value.now lease)) }
{
    out.push_str("put(")?;
    push_quoted(alloc, out, key)?;
    out.push_str(", ")?;
    push_quoted(alloc, out, value)?;
    push_last_number(out, lease)?;
    out.push(')')
}

/// Adds an operation.
fn push_operation(alloc: Global, out: &mut String, operation: &Op) -> Result<(), AllocError>
    ensures { OnOk result (string_bytes out.new ≡ string_bytes out.old ++ shown_operation operation.now) }
{
    match operation {
        Op::Get { key, rev } => push_get(alloc, out, key.as_str(), *rev),
        Op::Put { key, value, lease } => {
            push_put(alloc, out, key.as_str(), value.as_str(), *lease)
        }
        Op::Del { key } => {
            out.push_str("del(")?;
            push_quoted(alloc, out, key.as_str())?;
            out.push(')')
        }
    }
}

/// Adds operations, each on a line of its own.
fn push_lines(alloc: Global, out: &mut String, operations: &[Op]) -> Result<(), AllocError>
    ensures { OnOk result (string_bytes out.new ≡ string_bytes out.old ++ lines 1 (map shown_operation operations.now)) }
{
    for operation in operations {
        push_next_line(out, 1)?;
        push_operation(alloc, out, operation)?;
    }
    Ok(())
}

/// Adds a list of some operations.
fn push_filled(alloc: Global, out: &mut String, operations: &[Op]) -> Result<(), AllocError>
    ensures { OnOk result (string_bytes out.new ≡ string_bytes out.old ++ filled 0 (map shown_operation operations.now)) }
{
    out.push('{')?;
    push_lines(alloc, out, operations)?;
    push_next_line(out, 0)?;
    out.push('}')
}

/// Adds a list of operations.
fn push_operations(alloc: Global, out: &mut String, operations: &[Op]) -> Result<(), AllocError>
    ensures { OnOk result (string_bytes out.new ≡ string_bytes out.old ++ shown_operations operations.now) }
{
    match operations {
        [] => out.push_str("{}"),
        [_, ..] => push_filled(alloc, out, operations),
    }
}

/// Adds the failure list of some operations.
fn push_else(alloc: Global, out: &mut String, operations: &[Op]) -> Result<(), AllocError>
    ensures { OnOk result (string_bytes out.new ≡ string_bytes out.old ++ (codes " else " ++ shown_operations operations.now)) }
{
    out.push_str(" else ")?;
    push_operations(alloc, out, operations)
}

/// Adds the failure list, where it has operations.
fn push_failure(alloc: Global, out: &mut String, operations: &[Op]) -> Result<(), AllocError>
    ensures { OnOk result (string_bytes out.new ≡ string_bytes out.old ++ shown_failure operations.now) }
{
    match operations {
        [] => Ok(()),
        [_, ..] => push_else(alloc, out, operations),
    }
}

/// Adds a transaction.
pub(crate) fn push_txn(alloc: Global, out: &mut String, txn: &Txn) -> Result<(), AllocError>
    ensures { OnOk result (string_bytes out.new ≡ string_bytes out.old ++ shown_txn txn.now) }
{
    out.push_str("txn ")?;
    push_compares(alloc, out, txn.compares.as_slice())?;
    push_operations(alloc, out, txn.success.as_slice())?;
    push_failure(alloc, out, txn.failure.as_slice())
}
