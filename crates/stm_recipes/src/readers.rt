//! What a state has of accounts, queues and slots.
ghost use Rattle.std.specs.Prelude.{◌≡◌, ◌-◌, ◌^◌, ◌++◌, ◌≤◌, map, string_bytes, option_map, IfOk, pos, neg_ℤ, ◌+ℤ◌, ◌≤ℤ◌};
ghost use Rattle.std.specs.Fmt.{decimal};
ghost use Rattle.std.specs.Option.{option_copied};
ghost use Rattle.stm_recipes.specs.Accounts.{balance_of, total_of};
ghost use Rattle.stm_recipes.specs.Names.{items_key};
ghost use Rattle.stm_recipes.specs.Queues as recipe;
ghost use Rattle.stm_recipes.specs.Queues.{mark_of, item_at, items_from, queue_items_of};
ghost use Rattle.stm_recipes.specs.Slots.{holder_in};
ghost use Rattle.stm_steps.specs.States.{find_entry};

use crate::names::joined;
use crate::numbers::number_in;
use std::alloc::{AllocError, Global};
use stm_history::Text;
use stm_meaning::State;

/// The sum of the numbers that accounts have, an account as often as it is named. `None` where an account is absent or its
/// value is no number.
pub fn total(state: &State, accounts: &[&str]) -> Option<i128>
    ensures { result ≡ total_of state.now (map (λ account. account.now) accounts.now) }
{
    let mut sum: i128 = 0;
    for &account in accounts {
        let balance = balance(state, account)?;
        sum = with_balance(sum, balance);
    }
    Some(sum)
}

/// A sum and one more balance, where the result fits.
fn with_balance(sum: i128, balance: i64) -> i128
    requires above { neg_ℤ (pos (2 ^ 127 - 2 ^ 63)) ≤ℤ sum }
    requires below { sum ≤ℤ pos (2 ^ 127 - 2 ^ 63) }
    ensures added { result ≡ sum +ℤ balance }
    ensures above { neg_ℤ (pos (2 ^ 63)) ≤ℤ balance }
    ensures below { balance ≤ℤ pos (2 ^ 63) }
{
    sum + i128::from(balance)
}

/// The number that an account has.
fn balance(state: &State, account: &str) -> Option<i64>
    ensures { result ≡ balance_of (find_entry account.now state.now) }
{
    match state.get(account) {
        Some(entry) => number_in(entry.value.as_str()),
        None => None,
    }
}

/// The items of a queue, the first one first: those under the numbers from its head up to the one before its tail. A head or
/// a tail that is absent is 0; one that is empty is no number.
///
/// `None` where the state has no such queue: head or tail is no number or negative, head is above tail, or an item is absent.
/// It fails only when out of memory.
pub fn queue_items(
    alloc: Global,
    state: &State,
    queue: &str,
) -> Result<Option<Vec<String>>, AllocError>
    ensures { IfOk result (λ found. option_map (λ items. map string_bytes items.items) found ≡ queue_items_of state.now queue.now) }
{
    let head = joined(alloc, queue, "/head")?;
    let tail = joined(alloc, queue, "/tail")?;
    let head = mark(state, head.as_str());
    let tail = mark(state, tail.as_str());
    items_of_marks(alloc, state, queue, head, tail)
}

/// The items from a head up to the one before a tail, where there are both and the head is not above the tail.
fn items_of_marks(
    alloc: Global,
    state: &State,
    queue: &str,
    head: Option<u64>,
    tail: Option<u64>,
) -> Result<Option<Vec<String>>, AllocError>
    ensures { IfOk result (λ found. option_map (λ items. map string_bytes items.items) found ≡ recipe.items_between state.now queue.now head tail) }
{
    match (head, tail) {
        (Some(head), Some(tail)) if head <= tail => {
            items_between(alloc, state, queue, head, tail)
        }
        _ => Ok(None),
    }
}

/// The number that a head or a tail has, 0 where it is absent.
fn mark(state: &State, key: &str) -> Option<u64>
    ensures { result ≡ mark_of (find_entry key.now state.now) }
{
    match state.get(key) {
        Some(entry) => {
            let number = number_in(entry.value.as_str())?;
            u64::try_from(number).ok()
        }
        None => Some(0),
    }
}

/// The items from a head up to the one before a tail.
fn items_between(
    alloc: Global,
    state: &State,
    queue: &str,
    head: u64,
    tail: u64,
) -> Result<Option<Vec<String>>, AllocError>
    requires { head ≤ tail }
    ensures { IfOk result (λ found. option_map (λ items. map string_bytes items.items) found ≡ items_from state.now queue.now head (tail - head)) }
{
    let mut items = Vec::new(alloc);
    for number in head..tail {
        let found = item(alloc, state, queue, number)?;
        match found {
            Some(item) => items.push(item)?,
            None => return Ok(None),
        }
    }
    Ok(Some(items))
}

/// The item of a number. `None` where it is absent.
fn item(
    alloc: Global,
    state: &State,
    queue: &str,
    number: u64,
) -> Result<Option<String>, AllocError>
    ensures { IfOk result (λ found. option_map string_bytes found ≡ item_at state.now queue.now number) }
{
    let key = item_key(alloc, queue, number)?;
    match state.get(key.as_str()) {
        Some(entry) => Ok(Some(String::from_str(alloc, entry.value.as_str())?)),
        None => Ok(None),
    }
}

/// The key of the item of a number.
fn item_key(alloc: Global, queue: &str, number: u64) -> Result<Text, AllocError>
    ensures { IfOk result (λ key. key ≡ items_key queue.now ++ decimal number) }
{
    let items = joined(alloc, queue, "/")?;
    let number = format!(in alloc; "{number}")?;
    let key = joined(alloc, items.as_str(), number.as_str())?;
    Ok(key)
}

/// Who holds a slot. `None` where it is free.
pub fn held<'a>(state: &'a State, slot: &str) -> Option<&'a str>
    ensures { option_copied result ≡ holder_in state.now slot.now }
{
    match state.get(slot) {
        Some(entry) => Some(entry.value.as_str()),
        None => None,
    }
}
