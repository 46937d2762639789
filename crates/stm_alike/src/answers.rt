//! Whether lists of answers are the same, or are the same but for the revisions that later ones carry.
ghost use Rattle.std.specs.Prelude.{◌≡◌, true, ℕ, map, min, fold, Option};
ghost use Rattle.stm_history.specs.declared.key_state.ReadAnswer.{ReadAnswer as Answer};
ghost use Rattle.stm_compile.specs.CommitTxn.{first_carried};
ghost use Rattle.stm_alike.specs.Levelled.{carrying, levelled, undated, reads_seen};

use crate::transactions::is_same_text;
use stm_history::{HIGHEST_REVISION, KeyState, ReadAnswer, are_same_states};
use stm_program::Level;

/// Whether a key is absent in both, or has the same state in both.
fn is_same_kv(left: &Option<KeyState>, right: &Option<KeyState>) -> bool
    ensures { result ≡ true → left.now ≡ right.now }
{
    match left {
        None => right.is_none(),
        Some(state) => match right {
            None => false,
            Some(other) => are_same_states(state, other),
        },
    }
}

/// Whether two answers are of one key in one state: the same but for the revisions that they show and carry.
fn finds_the_same(left: &ReadAnswer, right: &ReadAnswer) -> bool
    ensures { result ≡ true → undated left.now ≡ undated right.now }
{
    if !is_same_text(&left.key, &right.key) {
        return false;
    }
    is_same_kv(&left.kv, &right.kv)
}

/// Whether two answers are the same but for the revision that they carry.
fn shows_the_same(left: &ReadAnswer, right: &ReadAnswer) -> bool
    ensures { result ≡ true → (n : ℕ) → carrying n left.now ≡ carrying n right.now }
{
    if left.of_rev != right.of_rev {
        return false;
    }
    finds_the_same(left, right)
}

/// Whether two answers are the same.
fn is_same_answer(left: &ReadAnswer, right: &ReadAnswer) -> bool
    ensures { result ≡ true → left.now ≡ right.now }
{
    if left.revision != right.revision {
        return false;
    }
    shows_the_same(left, right)
}

/// Whether these answers are those.
pub fn are_same_answers(left: &[ReadAnswer], right: &[ReadAnswer]) -> bool
    ensures { result ≡ true → left.now ≡ right.now }
{
    if left.len() != right.len() {
        return false;
    }
    for i in 0..left.len() {
        if !is_same_answer(&left[i], &right[i]) {
            return false;
        }
    }
    true
}

/// Whether these answers are those but for the revisions that they carry.
fn show_the_same(left: &[ReadAnswer], right: &[ReadAnswer]) -> bool
    ensures { result ≡ true → (n : ℕ) → map (carrying n) left.now ≡ map (carrying n) right.now }
{
    if left.len() != right.len() {
        return false;
    }
    for i in 0..left.len() {
        if !shows_the_same(&left[i], &right[i]) {
            return false;
        }
    }
    true
}

/// Whether these answers are those but for the revisions that they show and carry.
fn find_the_same(left: &[ReadAnswer], right: &[ReadAnswer]) -> bool
    ensures { result ≡ true → map undated left.now ≡ map undated right.now }
{
    if left.len() != right.len() {
        return false;
    }
    for i in 0..left.len() {
        if !finds_the_same(&left[i], &right[i]) {
            return false;
        }
    }
    true
}

/// The least of a revision and of those that these answers carry.
fn least_of(first: u64, answers: &[ReadAnswer]) -> u64
    ensures { result ≡ fold (λ least (b : Answer). min least b.revision) first answers.now }
{
    let mut least = first;
    for answer in answers {
        least = least.min(answer.revision);
    }
    least
}

/// The least revision that the answers carry, the highest one where there are none.
fn least_carried(answers: &[ReadAnswer]) -> u64
    ensures { result ≡ first_carried answers.now }
{
    match answers {
        [] => HIGHEST_REVISION,
        [first, others @ ..] => least_of(first.revision, others),
    }
}

/// Whether these answers are those but for the revisions that later ones carry.
fn are_level(left: &[ReadAnswer], right: &[ReadAnswer]) -> bool
    ensures { result ≡ true → levelled left.now ≡ levelled right.now }
{
    if !show_the_same(left, right) {
        return false;
    }
    least_carried(left) == least_carried(right)
}

/// Whether an attempt at this level that has these answers, and others prefetched, goes on as one that has those: they are the same but for the revisions that
/// later ones carry, or, where the level reads each key as it is now, but for all revisions that they show.
pub fn are_seen_alike(
    level: Level,
    prefetched: &[ReadAnswer],
    left: &[ReadAnswer],
    right: &[ReadAnswer],
) -> bool
    ensures { result ≡ true → reads_seen level prefetched.now left.now ≡ reads_seen level prefetched.now right.now }
{
    if level.is_serializable() || !prefetched.is_empty() {
        return are_level(left, right);
    }
    find_the_same(left, right)
}
