//! The laws of entries. Each function does nothing: its contract is the law.
ghost use Rattle.stm_entries.specs.Laws.{ReplayGoesOn, LegalityGoesOn, ReplayOnlyAdds};

/// The replay of entries and more entries is the replay of the later ones from where the earlier ones lead.
pub fn replay_goes_on()
    ensures { ReplayGoesOn }
{}

/// Entries are legal exactly where a prefix of them is, and the rest from where that prefix leads.
pub fn legality_goes_on()
    ensures { LegalityGoesOn }
{}

/// Whatever is replayed, the history is the one before with revisions added to it, each of which changes
/// something and no key twice.
pub fn replay_only_adds()
    ensures { ReplayOnlyAdds }
{}
