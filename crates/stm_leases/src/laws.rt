//! The laws of due leases and of their keys. Each function does nothing: its contract is the law.
ghost use Rattle.stm_leases.specs.Laws.{FirstDueIsNext, KeysOnAreKeys, AscendingIsUnique, OneListOfKeys};

/// The lease that is due first is the one that comes no later than any other due lease.
#[tactic(auto, using(crate::proofs::DueLaws::first_due_is_next))]
pub fn first_due_is_next()
    ensures { FirstDueIsNext }
{}

/// The keys on a lease are those that are attached to it, ascending by bytes.
#[tactic(auto, using(crate::proofs::KeyLaws::keys_on_are_keys))]
pub fn keys_on_are_keys()
    ensures { KeysOnAreKeys }
{}

/// Ascending lists with the same members are one list.
#[tactic(auto, using(crate::proofs::KeyLaws::ascending_is_unique))]
pub fn ascending_is_unique()
    ensures { AscendingIsUnique }
{}

/// A lease has one list of keys.
pub fn one_list_of_keys()
    ensures { OneListOfKeys }
{}
