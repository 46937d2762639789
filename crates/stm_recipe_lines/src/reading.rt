//! The recipe that words spell, or what is wrong with them first. Nothing here takes memory.
ghost use Rattle.std.specs.Prelude.{◌≡◌, ◌≤◌, Some, IfOk};
ghost use Rattle.stm_recipes.specs.Names.{IsName};
ghost use Rattle.stm_recipe_lines.specs.Lines.{Fits};
ghost use Rattle.stm_recipe_lines.specs.Reading as spelled;

use crate::recipe::Recipe;
use crate::words::{Argument, RecipeKind, RecipeWords, WordsFault};
use stm_program::MAX_LEASE;
use stm_recipes::MAX_NAME;

/// The recipe of a name, where there is one.
#[tactic(auto, unfolding(crate::specs::Reading::recipe_named))]
fn kind_of(name: &str) -> Option<RecipeKind>
    ensures { result ≡ spelled.recipe_named name.now }
{
    if name == "transfer" {
        Some(RecipeKind::Transfer)
    } else if name == "deposit" {
        Some(RecipeKind::Deposit)
    } else if name == "enqueue" {
        Some(RecipeKind::Enqueue)
    } else if name == "dequeue" {
        Some(RecipeKind::Dequeue)
    } else if name == "reserve_slot" {
        Some(RecipeKind::ReserveSlot)
    } else if name == "release_slot" {
        Some(RecipeKind::ReleaseSlot)
    } else {
        None
    }
}

/// The word of an argument that is a text of 1 to 1024 bytes.
#[tactic(auto, unfolding(crate::specs::Reading::text_in))]
fn text_in<'a>(argument: Argument, word: &'a str) -> Result<&'a str, WordsFault>
    ensures exact { result ≡ spelled.text_in argument word.entry }
    ensures fits { IfOk result (λ text. IsName text.now) }
{
    if word.is_empty() {
        return Err(WordsFault::Text(argument));
    }
    if word.len() > MAX_NAME {
        return Err(WordsFault::Text(argument));
    }
    Ok(word)
}

/// The amount that a word writes.
fn amount_in(word: &str) -> Result<u32, WordsFault>
    ensures { result ≡ spelled.amount_in word.now }
{
    match word.parse::<u32>() {
        Ok(amount) => Ok(amount),
        Err(_) => Err(WordsFault::Amount),
    }
}

/// A number that was read, where it is the id of a lease or 0.
fn lease_of(number: u64) -> Result<u64, WordsFault>
    ensures exact { result ≡ spelled.up_to MAX_LEASE WordsFault.Lease number }
    ensures fits { IfOk result (λ lease. lease ≤ MAX_LEASE) }
{
    if number > MAX_LEASE {
        return Err(WordsFault::Lease);
    }
    Ok(number)
}

/// The lease that a word writes.
fn lease_in(word: &str) -> Result<u64, WordsFault>
    ensures exact { result ≡ spelled.lease_in word.now }
    ensures fits { IfOk result (λ lease. lease ≤ MAX_LEASE) }
{
    match word.parse::<u64>() {
        Ok(number) => lease_of(number),
        Err(_) => Err(WordsFault::Lease),
    }
}

/// The transfer of these arguments.
#[tactic(auto, unfolding(crate::specs::Reading::transfer_of))]
fn transfer_of<'a>(from: &'a str, to: &'a str, amount: &str) -> Result<Recipe<'a>, WordsFault>
    ensures exact { result ≡ spelled.transfer_of from.entry to.entry amount.now }
    ensures fits { IfOk result Fits }
{
    let from = text_in(Argument::From, from)?;
    let to = text_in(Argument::To, to)?;
    let amount = amount_in(amount)?;
    Ok(Recipe::Transfer { from, to, amount })
}

/// The deposit of these arguments.
#[tactic(auto, unfolding(crate::specs::Reading::deposit_of))]
fn deposit_of<'a>(account: &'a str, amount: &str) -> Result<Recipe<'a>, WordsFault>
    ensures exact { result ≡ spelled.deposit_of account.entry amount.now }
    ensures fits { IfOk result Fits }
{
    let account = text_in(Argument::Account, account)?;
    let amount = amount_in(amount)?;
    Ok(Recipe::Deposit { account, amount })
}

/// The enqueue of these arguments.
#[tactic(auto, unfolding(crate::specs::Reading::enqueue_of))]
fn enqueue_of<'a>(queue: &'a str, item: &'a str) -> Result<Recipe<'a>, WordsFault>
    ensures exact { result ≡ spelled.enqueue_of queue.entry item.entry }
    ensures fits { IfOk result Fits }
{
    let queue = text_in(Argument::Queue, queue)?;
    let item = text_in(Argument::Item, item)?;
    Ok(Recipe::Enqueue { queue, item })
}

/// The dequeue of this argument.
#[tactic(auto, unfolding(crate::specs::Reading::dequeue_of))]
fn dequeue_of<'a>(queue: &'a str) -> Result<Recipe<'a>, WordsFault>
    ensures exact { result ≡ spelled.dequeue_of queue.entry }
    ensures fits { IfOk result Fits }
{
    let queue = text_in(Argument::Queue, queue)?;
    Ok(Recipe::Dequeue { queue })
}

/// The reservation of these arguments.
#[tactic(auto, unfolding(crate::specs::Reading::reserve_of))]
fn reserve_of<'a>(slot: &'a str, holder: &'a str, lease: &str) -> Result<Recipe<'a>, WordsFault>
    ensures exact { result ≡ spelled.reserve_of slot.entry holder.entry lease.now }
    ensures fits { IfOk result Fits }
{
    let slot = text_in(Argument::Slot, slot)?;
    let holder = text_in(Argument::Holder, holder)?;
    let lease = lease_in(lease)?;
    Ok(Recipe::ReserveSlot {
        slot,
        holder,
        lease,
    })
}

/// The release of these arguments.
#[tactic(auto, unfolding(crate::specs::Reading::release_of))]
fn release_of<'a>(slot: &'a str, holder: &'a str) -> Result<Recipe<'a>, WordsFault>
    ensures exact { result ≡ spelled.release_of slot.entry holder.entry }
    ensures fits { IfOk result Fits }
{
    let slot = text_in(Argument::Slot, slot)?;
    let holder = text_in(Argument::Holder, holder)?;
    Ok(Recipe::ReleaseSlot { slot, holder })
}

/// The transfer of a command line's arguments.
#[tactic(auto, unfolding(crate::specs::Reading::transfer_in))]
fn transfer_in<'a>(words: &RecipeWords<'a>) -> Result<Recipe<'a>, WordsFault>
    ensures exact { result ≡ spelled.transfer_in words.now.first words.now.second words.now.third }
    ensures fits { IfOk result Fits }
{
    match (words.first, words.second, words.third) {
        (Some(from), Some(to), Some(amount)) => transfer_of(from, to, amount),
        _ => Err(WordsFault::Count(RecipeKind::Transfer)),
    }
}

/// The deposit of a command line's arguments.
#[tactic(auto, unfolding(crate::specs::Reading::deposit_in))]
fn deposit_in<'a>(words: &RecipeWords<'a>) -> Result<Recipe<'a>, WordsFault>
    ensures exact { result ≡ spelled.deposit_in words.now.first words.now.second words.now.third }
    ensures fits { IfOk result Fits }
{
    match (words.first, words.second, words.third) {
        (Some(account), Some(amount), None) => deposit_of(account, amount),
        _ => Err(WordsFault::Count(RecipeKind::Deposit)),
    }
}

/// The enqueue of a command line's arguments.
#[tactic(auto, unfolding(crate::specs::Reading::enqueue_in))]
fn enqueue_in<'a>(words: &RecipeWords<'a>) -> Result<Recipe<'a>, WordsFault>
    ensures exact { result ≡ spelled.enqueue_in words.now.first words.now.second words.now.third }
    ensures fits { IfOk result Fits }
{
    match (words.first, words.second, words.third) {
        (Some(queue), Some(item), None) => enqueue_of(queue, item),
        _ => Err(WordsFault::Count(RecipeKind::Enqueue)),
    }
}

/// The dequeue of a command line's arguments.
#[tactic(auto, unfolding(crate::specs::Reading::dequeue_in))]
fn dequeue_in<'a>(words: &RecipeWords<'a>) -> Result<Recipe<'a>, WordsFault>
    ensures exact { result ≡ spelled.dequeue_in words.now.first words.now.second words.now.third }
    ensures fits { IfOk result Fits }
{
    match (words.first, words.second, words.third) {
        (Some(queue), None, None) => dequeue_of(queue),
        _ => Err(WordsFault::Count(RecipeKind::Dequeue)),
    }
}

/// The reservation of a command line's arguments.
#[tactic(auto, unfolding(crate::specs::Reading::reserve_in))]
fn reserve_in<'a>(words: &RecipeWords<'a>) -> Result<Recipe<'a>, WordsFault>
    ensures exact { result ≡ spelled.reserve_in words.now.first words.now.second words.now.third }
    ensures fits { IfOk result Fits }
{
    match (words.first, words.second, words.third) {
        (Some(slot), Some(holder), Some(lease)) => reserve_of(slot, holder, lease),
        _ => Err(WordsFault::Count(RecipeKind::ReserveSlot)),
    }
}

/// The release of a command line's arguments.
#[tactic(auto, unfolding(crate::specs::Reading::release_in))]
fn release_in<'a>(words: &RecipeWords<'a>) -> Result<Recipe<'a>, WordsFault>
    ensures exact { result ≡ spelled.release_in words.now.first words.now.second words.now.third }
    ensures fits { IfOk result Fits }
{
    match (words.first, words.second, words.third) {
        (Some(slot), Some(holder), None) => release_of(slot, holder),
        _ => Err(WordsFault::Count(RecipeKind::ReleaseSlot)),
    }
}

/// The recipe of this kind that words spell.
#[tactic(auto, unfolding(crate::specs::Reading::recipe_of))]
fn recipe_of<'a>(kind: RecipeKind, words: &RecipeWords<'a>) -> Result<Recipe<'a>, WordsFault>
    ensures exact { result ≡ spelled.recipe_of (Some kind) words.now }
    ensures fits { IfOk result Fits }
{
    match kind {
        RecipeKind::Transfer => transfer_in(words),
        RecipeKind::Deposit => deposit_in(words),
        RecipeKind::Enqueue => enqueue_in(words),
        RecipeKind::Dequeue => dequeue_in(words),
        RecipeKind::ReserveSlot => reserve_in(words),
        RecipeKind::ReleaseSlot => release_in(words),
    }
}

/// The recipe that words spell, with its arguments.
///
/// The name is looked at first, then how many arguments there are, then these in their order. Refused is what is wrong first: a name that no
/// recipe has, another number of arguments, a text that is empty or has more than 1024 bytes, an amount that is no whole number from 0 to
/// 4294967295, and a lease that is none from 0 to 9223372036854775807. A number is decimal digits, which a `+` may stand before.
pub fn read_recipe<'a>(words: &RecipeWords<'a>) -> Result<Recipe<'a>, WordsFault>
    ensures exact { result ≡ spelled.recipe_in words.now }
    ensures fits { IfOk result Fits }
{
    match kind_of(words.name) {
        Some(kind) => recipe_of(kind, words),
        None => Err(WordsFault::UnknownName),
    }
}
