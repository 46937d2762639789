//! Compares, over what the keys are now.
ghost use Rattle.std.specs.Prelude.{◌≡◌, option_copied};
ghost use Rattle.stm_history.specs.History.{key_now};
ghost use Rattle.stm_outcome.specs.Compares.{is_asked, sides, holds, first_failed};

use crate::answer::FailedCompare;
use crate::txn::{Compare, Order, Target};
use std::cmp::Ordering;
use stm_history::found_mod_rev;
use stm_keys::{KeyState, Keys};

/// Whether two sides that compare so are in the order that is asked for.
fn is_order(order: Order, sides: Ordering) -> bool
    ensures { result ≡ is_asked order sides }
{
    match order {
        Order::Equal => sides.is_eq(),
        Order::NotEqual => sides.is_ne(),
        Order::Greater => sides.is_gt(),
        Order::Less => sides.is_lt(),
    }
}

/// How the stored side compares with the compare's side, `None` for the value of an absent key.
fn standing(target: &Target, state: Option<&KeyState>) -> Option<Ordering>
    ensures { result ≡ sides target.now (option_copied state.entry) }
{
    match target {
        Target::Version(n) => Some(state.map_or(0, |s| s.version).cmp(n)),
        Target::Create(n) => Some(state.map_or(0, |s| s.create_rev).cmp(n)),
        Target::Mod(n) => Some(state.map_or(0, |s| s.mod_rev).cmp(n)),
        Target::Lease(n) => Some(state.map_or(0, |s| s.lease).cmp(n)),
        Target::Value(text) => Some(state?.value.cmp(text)),
    }
}

/// Whether a compare holds of what its key is.
fn compare_holds(compare: &Compare, state: Option<&KeyState>) -> bool
    ensures { result ≡ holds compare.now (option_copied state.entry) }
{
    match standing(&compare.target, state) {
        None => false,
        Some(sides) => is_order(compare.order, sides),
    }
}

/// The first compare that does not hold of what the keys are now.
pub fn find_failed(compares: &[Compare], keys: &Keys) -> Option<FailedCompare>
    ensures { result ≡ first_failed (key_now keys.now.history) 0 compares.now }
{
    for (index, compare) in compares.iter().enumerate() {
        let state = keys.get(compare.key.as_str());
        if !compare_holds(compare, state) {
            let mod_rev = found_mod_rev(state);
            return Some(FailedCompare { index, mod_rev });
        }
    }
    None
}
