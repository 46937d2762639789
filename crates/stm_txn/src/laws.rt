//! The laws of stores. Each function does nothing: its contract is the law.
ghost use Rattle.stm_txn.specs.Advances.{KeysOfLeaseAreAttached, AdvanceExpires};
ghost use Rattle.stm_txn.specs.PresentKeys.{PresentKeysAreListed};

/// The keys of a lease, as they are computed from the history, are those that are attached to it, ascending by bytes.
pub fn keys_of_lease_are_attached()
    ensures { KeysOfLeaseAreAttached }
{}

/// An advance that does not go back ends due leases one after another, each the first that is due, until none
/// is due or the next one can't end.
pub fn advance_expires()
    ensures { AdvanceExpires }
{}

/// The keys that are present, as they are computed from the history, are every ascending list of exactly these.
pub fn present_keys_are_listed()
    ensures { PresentKeysAreListed }
{}
