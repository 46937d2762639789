//! Whether places of runners are alike, and numbers that alike worlds have in common.
ghost use Rattle.std.specs.Prelude.{◌≡◌, true, map};
ghost use Rattle.stm_alike.specs.Seen.{seen_slot};

use crate::slots::Slot;
use stm_program::{Level, Program};

/// One number more in a hint.
pub(crate) fn mix(seed: u64, x: u64) -> u64 {
    (seed.rotate_left(5) ^ x).wrapping_mul(5871781006564002453)
}

/// Whether two programs are the same.
pub(crate) fn is_same_program(left: &Program, right: &Program) -> bool
    ensures { result ≡ true → left.now ≡ right.now }
{
    left.is_same(right)
}

/// Whether two levels are the same.
pub(crate) fn is_same_level(left: Level, right: Level) -> bool
    ensures { result ≡ true → left ≡ right }
{
    left.is_same(right)
}

/// Whether what stands at two places is alike.
fn is_slot_alike(left: &Slot, right: &Slot) -> bool
    ensures { result ≡ true → seen_slot left.now ≡ seen_slot right.now }
{
    left.is_alike(right)
}

/// Whether what stands at these places is alike.
pub(crate) fn are_slots_alike(left: &[Slot], right: &[Slot]) -> bool
    ensures { result ≡ true → map seen_slot left.now ≡ map seen_slot right.now }
{
    if left.len() != right.len() {
        return false;
    }
    for i in 0..left.len() {
        if !is_slot_alike(&left[i], &right[i]) {
            return false;
        }
    }
    true
}

/// A number that alike runners at these places have in common, and others mostly do not.
pub(crate) fn hint_of(slots: &[Slot]) -> u64 {
    let mut hint = 0;
    for slot in slots {
        hint = mix(hint, slot.hint());
    }
    hint
}
