//! Numbers.
ghost use Rattle.std.specs.Prelude.{◌≡◌, ◌≤◌, length};
ghost use Rattle.stm_tokens.specs.Numbers.{next_value, value_from, number_length as length_of_number};

use crate::runs::{Run, run_length};

/// What stands for each number of more than 19 digits.
pub(crate) const OUT_OF_RANGE: u64 = 9999999999999999999;

/// The greatest number that one more digit can follow.
const BEFORE_LAST: u64 = 999999999999999999;

/// A number with one more digit behind it.
fn with_digit(value: u64, digit: u8) -> u64
    ensures { result ≡ next_value value digit }
{
    if value > BEFORE_LAST {
        return OUT_OF_RANGE;
    }
    10 * value + u64::from(digit.saturating_sub(b'0'))
}

/// The number that digits spell.
pub fn number_of(digits: &[u8]) -> u64
    ensures { result ≡ value_from 0 digits.now }
{
    let mut value = 0u64;
    for digit in digits {
        value = with_digit(value, *digit);
    }
    value
}

/// How many bytes at the start are a number: one where it is 0.
pub fn number_length(bytes: &[u8]) -> usize
    ensures is { result ≡ length_of_number bytes.now }
    ensures within { result ≤ length bytes.now }
{
    match bytes.first() {
        Some(b'0') => 1,
        _ => run_length(Run::Digits, bytes),
    }
}
