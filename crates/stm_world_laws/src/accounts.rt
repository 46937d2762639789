//! The laws of accounts. Each function does nothing: its contract is the law.
ghost use Rattle.stm_world_laws.specs.Accounts.{CountedTotals, TotalsGrowByDeposits};
ghost use Rattle.stm_world_laws.specs.WrongEntries.{WrongTransfers};

/// Where accounts, each named once, have a total and are changed only by transfers among them and by deposits to them, at levels that
/// compare, the total grows by the deposits that committed: no interleaving makes money or loses it. This is the total that
/// `stm_recipes::total` gives for a state.
///
/// Any other write of an account (at ReadCommitted, by another program, or another client's put or delete) can break this: the law asks
/// that there is none.
#[tactic(auto, using(crate::proofs::AccountLemmas::totals_grow_by_deposits))]
pub fn totals_grow_by_deposits()
    ensures { TotalsGrowByDeposits }
{}

/// What accounts have in all grows by the deposits, too, where an absent account, or one with an empty value, counts as 0, as it does for a
/// deposit: so it is said also of accounts that the deposits make. Where each account has a number, this is the total.
#[tactic(auto, using(crate::proofs::AccountLemmas::counted_totals))]
pub fn counted_totals_grow_by_deposits()
    ensures { CountedTotals }
{}

/// These wrong entries of accounts are rejected: a transfer of more than the paying account has, or from one that has no number; and a
/// total that has grown by another amount than the deposits.
#[tactic(auto, using(crate::proofs::WrongEntries::wrong_transfers))]
pub fn wrong_transfers_are_none()
    ensures { WrongTransfers }
{}
