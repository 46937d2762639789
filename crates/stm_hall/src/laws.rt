//! The laws of halls. Each function does nothing: its contract is the law.
ghost use Rattle.stm_hall.specs.Laws.{HallsOpenAsTheirStore, TrueReadsAreVouched};

/// A hall that is made over a store is locked, and its opening state is that store.
pub fn halls_open_as_their_store()
    ensures { HallsOpenAsTheirStore }
{}

/// Where no compare of a commit fails and its answers are true, none of them is unvouched: at a level that compares, each of
/// their values is the store's.
#[tactic(auto, using(crate::proofs::TrueReads::true_reads_are_vouched))]
pub fn true_reads_are_vouched()
    ensures { TrueReadsAreVouched }
{}
