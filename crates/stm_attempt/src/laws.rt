//! The laws of attempts. Each function does nothing: its contract is the law.
ghost use Rattle.stm_attempt.specs.Laws.{NothingServesTheSettled, SettledIsSettled, RepeatingAnswersTheSame, WhatServesIsTaken, SettlingAddsPrefetched};
ghost use Rattle.stm_attempt.specs.Laws.{GoneOnIsGoneOn, ReadsBeginWithTheList, GoingOnKeepsTheBase, SuppliedListComesFirst, SuppliedKeyComesAfter};
ghost use Rattle.stm_attempt.specs.Laws.{ReadyBeginsWithTheList, SettlingKeepsTheBase, FetchingKeepsTheBase, ReadyIsTheRun};

/// A key that an attempt wants after settling is served by no prefetched answer.
#[tactic(auto, using(crate::proofs::SettleLemmas::nothing_serves_the_settled))]
pub fn nothing_serves_the_settled()
    ensures { NothingServesTheSettled }
{}

/// Settled is settled.
#[tactic(auto, using(crate::proofs::SettleLemmas::settled_is_settled))]
pub fn settled_is_settled()
    ensures { SettledIsSettled }
{}

/// Asked again with nothing supplied, an attempt answers the same.
#[tactic(auto, using(crate::proofs::NextLemmas::repeating_answers_the_same))]
pub fn repeating_answers_the_same()
    ensures { RepeatingAnswersTheSame }
{}

/// What serves is taken, and the attempt goes on from there.
#[tactic(auto, using(crate::proofs::SettleLemmas::what_serves_is_taken))]
pub fn what_serves_is_taken()
    ensures { WhatServesIsTaken }
{}

/// The settled reads are those before, and after them answers that were prefetched.
#[tactic(auto, using(crate::proofs::SettleLemmas::settling_adds_prefetched))]
pub fn settling_adds_prefetched()
    ensures { SettlingAddsPrefetched }
{}

/// Answers that show one revision still do after settling.
#[tactic(auto, using(crate::proofs::BaseLemmas::settling_keeps_the_base))]
pub fn settling_keeps_the_base()
    ensures { SettlingKeepsTheBase }
{}

/// Gone on is gone on.
#[tactic(auto, using(crate::proofs::EnteringLemmas::gone_on_is_gone_on))]
pub fn gone_on_is_gone_on()
    ensures { GoneOnIsGoneOn }
{}

/// Where what an attempt has read begins with its program's list, in the list's order, it still does once the attempt went on.
#[tactic(auto, using(crate::proofs::EnteringLemmas::reads_begin_with_the_list))]
pub fn reads_begin_with_the_list()
    ensures { ReadsBeginWithTheList }
{}

/// Once the answers to its program's list were supplied, what an attempt has read begins with the list.
#[tactic(auto, using(crate::proofs::ReadsBegin::supplied_list_comes_first))]
pub fn supplied_list_comes_first()
    ensures { SuppliedListComesFirst }
{}

/// Where what an attempt has read begins with its program's list, it still does once the answer to a key was supplied.
#[tactic(auto, using(crate::proofs::ReadsBegin::supplied_key_comes_after))]
pub fn supplied_key_comes_after()
    ensures { SuppliedKeyComesAfter }
{}

/// An attempt that is ready has read its program's whole list, before any other key, where what it had read began with the list.
#[tactic(auto, using(crate::proofs::ReadsBegin::ready_begins_with_the_list))]
pub fn ready_begins_with_the_list()
    ensures { ReadyBeginsWithTheList }
{}

/// Answers that show one revision still do after going on.
#[tactic(auto, using(crate::proofs::EnteringLemmas::going_on_keeps_the_base))]
pub fn going_on_keeps_the_base()
    ensures { GoingOnKeepsTheBase }
{}

/// At a serializable level the answer to the next fetch shows the revision that the others show.
///
/// So the answers of an attempt at such a level are of one revision, also of one that will fail.
#[tactic(auto, using(crate::proofs::BaseLemmas::fetching_keeps_the_base))]
pub fn fetching_keeps_the_base()
    ensures { FetchingKeepsTheBase }
{}

/// An attempt that is ready is its program's run on its answers.
#[tactic(auto, using(crate::proofs::NextLemmas::ready_is_the_run))]
pub fn ready_is_the_run()
    ensures { ReadyIsTheRun }
{}
