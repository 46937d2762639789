//! The laws. Each function does nothing: its contract is the law.
ghost use Rattle.stm_narrow.specs.Agree.{AgreeingWorldsAreSame};
ghost use Rattle.stm_narrow.specs.AgreeingPlaces.{AgreeingPlacesAreSame, SchedulesShowAlike};
ghost use Rattle.stm_narrow.specs.Beginning.{BeginningsAgree};
ghost use Rattle.stm_narrow.specs.Touching.{NamedKeysAreKept, SameRuns};

/// A program whose spelling names these keys and leases alone wants, lists and writes no others, whatever it is answered.
pub fn named_keys_are_kept()
    ensures { NamedKeysAreKept }
{}

/// Over two look-ups that know every key and say the same of those that it keeps to, a program runs the same.
pub fn same_runs()
    ensures { SameRuns }
{}

/// Two worlds that agree on the keys which the programs of their runners keep to: a step of a runner is told the same in both, and they agree after it, as
/// they do after another client's transaction that keeps to the same keys.
#[tactic(auto, using(crate::proofs::Others::agreeing_worlds_are_same))]
pub fn agreeing_worlds_are_same()
    ensures { AgreeingWorldsAreSame }
{}

/// Two places whose worlds agree and where the others bring the same transactions, which keep to the same keys: the same schedules go from both, to places that
/// agree, and a rule that keeps to these keys is kept by the same ones.
pub fn agreeing_places_are_same()
    ensures { AgreeingPlacesAreSame }
{}

/// Two schedules that leave the same to be shown from one of two such places do so from the other.
pub fn schedules_show_alike()
    ensures { SchedulesShowAlike }
{}

/// Two worlds with the same counter in which these keys are the same now, and the same runners begin, agree from now on. Events without steps add the runners
/// of their starts, whatever else they bring.
#[tactic(auto, using(crate::proofs::Beginnings::beginnings_agree))]
pub fn beginnings_agree()
    ensures { BeginningsAgree }
{}
