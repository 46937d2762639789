//! A law of calls. The function does nothing: its contract is the law.
ghost use Rattle.stm_journal.specs.Fetched.{ListIsOneTransaction};

/// The fetch of a list of keys, none of which is empty, is one transaction of the store: it reads each key as it is now, and nothing else.
/// It is refused as that is, for more keys than the store takes operations, and leaves the store as it was.
pub fn list_is_one_transaction()
    ensures { ListIsOneTransaction }
{}
