//! Numbers in a command line.
ghost use Rattle.std.specs.Prelude.{◌≡◌, ◌≤◌, IfErr, IfNone, IfOk, IfSome, option_map};
ghost use Rattle.clap.specs.Words.{IsUnsignedIn};
ghost use Rattle.stm_arguments.specs.Numbers.{AttemptsAt, BudgetAt, NamesNumber, RunsAt, WidthAt};

use crate::words::Unasked;

/// How many threads may run jobs, at most.
pub const MOST_WORKERS: usize = 16;

/// How many runs may be made, at most.
pub const MOST_RUNS: u64 = 1000000;

/// At most this many moves are made, where no number is named.
pub const USUAL_BUDGET: u64 = 1500000;

/// How many commits a run may send, at most.
pub const MOST_ATTEMPTS: u64 = 4294967295;

/// The least width of a table, in characters.
pub const LEAST_WIDTH: u64 = 20;

/// The greatest one.
pub const MOST_WIDTH: u64 = 1000;

/// A number that was read, where it is from one number to another.
fn between(number: u64, low: u64, high: u64) -> Option<u64>
    ensures some { IfSome result (λ n. (low ≤ n) × (n ≤ high) × (n ≡ number)) }
    ensures none { IfNone result ((low ≤ number) × (number ≤ high) → ⊥) }
{
    if number < low {
        return None;
    }
    if number > high {
        return None;
    }
    Some(number)
}

/// The number that a text spells, where it is from one number to another.
fn number_between(text: &str, low: u64, high: u64) -> Option<u64>
    ensures number { IfSome result (λ n. (low ≤ n) × (n ≤ high) × NamesNumber text.now n) }
    ensures none { IfNone result (IsUnsignedIn low high text.now → ⊥) }
{
    match text.parse::<u64>() {
        Ok(number) => between(number, low, high),
        Err(_) => None,
    }
}

/// How many threads run jobs, where the word spells a number from 1 to `MOST_WORKERS`.
pub(crate) fn workers_in(text: &str) -> Result<usize, Unasked>
    ensures number { IfOk result (λ workers. (1 ≤ workers) × (workers ≤ MOST_WORKERS) × NamesNumber text.now workers) }
    ensures none { IfErr result (λ _. IsUnsignedIn 1 MOST_WORKERS text.now → ⊥) }
{
    match number_between(text, 1, MOST_WORKERS as u64) {
        Some(number) => Ok(number as usize),
        None => Err(Unasked::Refused),
    }
}

/// How many runs are made, where a word stands there; it spells a number from 1 to `MOST_RUNS`.
pub(crate) fn runs_at(word: Option<&str>) -> Result<Option<u32>, Unasked>
    ensures runs { IfOk result (RunsAt (option_map (λ t. t.now) word.entry)) }
    ensures none { IfErr result (λ _. IfSome word.entry (λ t. IsUnsignedIn 1 MOST_RUNS t.now) → ⊥) }
{
    let Some(text) = word else {
        return Ok(None);
    };
    match number_between(text, 1, MOST_RUNS) {
        Some(number) => Ok(Some(number as u32)),
        None => Err(Unasked::Refused),
    }
}

/// How many characters wide a table is, where a word stands there; it spells a number from `LEAST_WIDTH` to `MOST_WIDTH`.
pub(crate) fn width_at(word: Option<&str>) -> Result<Option<u32>, Unasked>
    ensures width { IfOk result (WidthAt (option_map (λ t. t.now) word.entry)) }
    ensures none { IfErr result (λ _. IfSome word.entry (λ t. IsUnsignedIn LEAST_WIDTH MOST_WIDTH t.now) → ⊥) }
{
    let Some(text) = word else {
        return Ok(None);
    };
    match number_between(text, LEAST_WIDTH, MOST_WIDTH) {
        Some(number) => Ok(Some(number as u32)),
        None => Err(Unasked::Refused),
    }
}

/// How many moves are made at most: the number that a word spells, or `USUAL_BUDGET`.
pub(crate) fn budget_at(word: Option<&str>) -> Result<u64, Unasked>
    ensures budget { IfOk result (BudgetAt (option_map (λ t. t.now) word.entry)) }
    ensures none { IfErr result (λ _. IfSome word.entry (λ t. IsUnsignedIn 0 18446744073709551615 t.now) → ⊥) }
{
    let Some(text) = word else {
        return Ok(USUAL_BUDGET);
    };
    match number_between(text, 0, u64::MAX) {
        Some(number) => Ok(number),
        None => Err(Unasked::Refused),
    }
}

/// How many commits a run may send: the number from 1 to `MOST_ATTEMPTS` that a word spells, or 1.
pub(crate) fn attempts_at(word: Option<&str>) -> Result<u32, Unasked>
    ensures attempts { IfOk result (AttemptsAt (option_map (λ t. t.now) word.entry)) }
    ensures none { IfErr result (λ _. IfSome word.entry (λ t. IsUnsignedIn 1 MOST_ATTEMPTS t.now) → ⊥) }
{
    let Some(text) = word else {
        return Ok(1);
    };
    match number_between(text, 1, MOST_ATTEMPTS) {
        Some(number) => Ok(number as u32),
        None => Err(Unasked::Refused),
    }
}
