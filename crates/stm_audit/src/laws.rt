//! What it means that an audit finds something broken, or nothing.
ghost use Rattle.stm_audit.specs.Laws.{KeptWhereNothingIsBroken, NothingIsBrokenWhereKept};

/// A commit of which an audit finds nothing that its level promises not to come is what its level promises: its reads are true as far as it is known what was,
/// and at a level that compares them their keys are at the commit as they were read; at one that compares the keys written, none of these was put above the
/// least revision that a read is of.
#[tactic(auto, using(crate::proofs::Keeping::kept_where_nothing_is_broken))]
pub fn kept_where_nothing_is_broken()
    ensures { KeptWhereNothingIsBroken }
{}

/// And nothing else is accused: of a commit that is what its level promises in this sense, an audit finds nothing that is broken.
#[tactic(auto, using(crate::proofs::Keeping::nothing_is_broken_where_kept))]
pub fn nothing_is_broken_where_kept()
    ensures { NothingIsBrokenWhereKept }
{}
