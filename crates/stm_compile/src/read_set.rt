//! What an attempt has read.
//!
//! What each read of a run goes through is inlined, so that its values are not copied from call to call.
ghost use Rattle.std.specs.Prelude.{◌≡◌, ℕ, List, ◌<◌, ◌≤◌, bytes_eq, fold, min, [], ◌∷◌, ◌++◌, length, map, slice_get, option_copied, OnOk, OnErr, IfOk, IfSome, Some};
ghost use Rattle.std.specs.Prelude.{drop};
ghost use Rattle.std.specs.List.{find, IsDistinct};
ghost use Rattle.indexmap.specs.IndexMap.{get_by_text};
ghost use Rattle.stm_history.specs.declared.key_state.ReadAnswer.{ReadAnswer as Answer};
ghost use Rattle.stm_history.specs.declared.revisions.TheConstants.{HIGHEST_NUMBER};
ghost use Rattle.stm_outcome.specs.Numbers.{ReadFits};
ghost use Rattle.stm_compile.specs.Answers.{answer_in, look_up};
ghost use Rattle.stm_compile.specs.CommitTxn.{first_carried as first_of};
ghost use Rattle.stm_compile.specs.declared.read_set.TheConstants.{MOST_SEARCHED};

use indexmap::IndexMap;
use std::alloc::{AllocError, Global};
use std::marker::Model;
use stm_history::{HIGHEST_REVISION, ReadAnswer, Sequence, mod_rev_of, value_of};
use stm_meaning::Lookup;

/// How many answers or writes are searched one by one. For so few that is quicker than a table, which takes memory at its first key.
pub(crate) const MOST_SEARCHED: usize = 16;

/// The answers that an attempt has read, one for each key, in the order of first reads. Contracts see the
/// list of them.
///
/// Beside it stands an index of the answers after the first sixteen, from each key to the place of its answer, so that no look-up is a
/// long search. (The read set of the Go package `clientv3/concurrency`, which keeps no order.)
#[derive(Debug)]
pub struct ReadSet {
    answers: Vec<ReadAnswer>,
    // of the answers after those that are searched, counted from there
    places: IndexMap<String, usize>,
}

impl Drop for ReadSet {
    #[inline(always)]
    fn drop(self) {
        let ReadSet {
            answers: _,
            places: _,
        } = self;
    }
}

impl Model for ReadSet {
    ghost use Rattle.std.specs.Prelude.{List, All};
    ghost use Rattle.indexmap.specs.IndexMap.{get_by_text};
    ghost use Rattle.stm_history.specs.declared.key_state.ReadAnswer.{ReadAnswer};
    ghost use Rattle.stm_outcome.specs.Numbers.{ReadFits};
    ghost use Rattle.stm_compile.specs.declared.read_set.TheConstants.{MOST_SEARCHED};
    ghost use Rattle.stm_compile.specs.Places.{AreRead};

    ghost Value = { List ReadAnswer };

    ghost view = { λ s. s.answers.items };

    ghost invariant = { λ s. All ReadFits s.answers.items × AreRead MOST_SEARCHED s.answers.items (get_by_text s.places) };
}

/// The first of these answers that is of a key.
fn find_answer<'a>(answers: &'a [ReadAnswer], key: &str) -> Option<&'a ReadAnswer>
    ensures { option_copied result ≡ find (λ (a : Answer). bytes_eq a.key key.now) answers.now }
{
    answers.iter().find(|answer| answer.key.as_str() == key)
}

/// The answer at a place.
fn answer_at(answers: &[ReadAnswer], place: usize) -> &ReadAnswer
    requires { place < length answers.now }
    ensures { slice_get answers.now place ≡ Some result.now }
{
    &answers[place]
}

impl ReadSet {
    /// Nothing read. It takes no memory.
    pub fn new(alloc: Global) -> ReadSet
        ensures { result ≡ [] }
    {
        let answers = Vec::new(alloc);
        let places = IndexMap::new(alloc);
        ReadSet { answers, places }
    }

    /// Adds an answer after those that are searched, and its place to the index.
    fn add_indexed(&mut self, answer: ReadAnswer) -> Result<(), AllocError>
        requires place { MOST_SEARCHED ≤ length self.old }
        requires new_key { answer_in answer.key self.old ≡ None }
        requires in_range { ReadFits answer }
        ensures ok { OnOk result (self.new ≡ self.old ++ answer ∷ []) }
        ensures err { OnErr result (self.new ≡ self.old) }
    {
        let key = String::from_str(*self.answers.allocator(), answer.key.as_str())?;
        self.answers.reserve(1)?;
        let place = self.answers.len() - MOST_SEARCHED;
        self.places.insert(key, place)?;
        self.answers.push_reserved(answer);
        Ok(())
    }

    /// Adds an answer to those that are searched.
    #[inline(always)]
    fn add_searched(&mut self, answer: ReadAnswer) -> Result<(), AllocError>
        requires place { length self.old < MOST_SEARCHED }
        requires new_key { answer_in answer.key self.old ≡ None }
        requires in_range { ReadFits answer }
        ensures ok { OnOk result (self.new ≡ self.old ++ answer ∷ []) }
        ensures err { OnErr result (self.new ≡ self.old) }
    {
        self.answers.push(answer)?;
        Ok(())
    }

    /// Adds an answer at the end, of a key that has none yet. Its revisions are at most `HIGHEST_NUMBER`.
    ///
    /// Out of memory is its only refusal, and leaves the answers as they were.
    #[inline(always)]
    pub fn add(&mut self, answer: ReadAnswer) -> Result<(), AllocError>
        requires new_key { answer_in answer.key self.old ≡ None }
        requires in_range { ReadFits answer }
        ensures ok { OnOk result (self.new ≡ self.old ++ answer ∷ []) }
        ensures err { OnErr result (self.new ≡ self.old) }
    {
        if self.answers.len() < MOST_SEARCHED {
            self.add_searched(answer)
        } else {
            self.add_indexed(answer)
        }
    }

    /// The number of answers.
    pub fn len(&self) -> usize
        ensures { result ≡ length self.now }
    {
        self.answers.len()
    }

    /// The answer at a place, which is below `len()`.
    pub fn at(&self, place: usize) -> &ReadAnswer
        requires { place < length self.now }
        ensures answer { slice_get self.now place ≡ Some result.now }
        ensures in_range { ReadFits result.now }
    {
        &self.answers[place]
    }

    /// The answer for a key, of those after the ones that are searched.
    fn get_indexed(&self, key: &str) -> Option<&ReadAnswer>
        requires { MOST_SEARCHED ≤ length self.now }
        ensures { option_copied result ≡ answer_in key.now (drop MOST_SEARCHED self.now) }
    {
        let (_, indexed) = self.answers.as_slice().split_at(MOST_SEARCHED);
        let place = *self.places.get(key)?;
        Some(answer_at(indexed, place))
    }

    /// The answer for a key, where there are more than are searched.
    fn get_of_many(&self, key: &str) -> Option<&ReadAnswer>
        requires { MOST_SEARCHED ≤ length self.now }
        ensures { option_copied result ≡ answer_in key.now self.now }
    {
        let (searched, _) = self.answers.as_slice().split_at(MOST_SEARCHED);
        match find_answer(searched, key) {
            Some(answer) => Some(answer),
            None => self.get_indexed(key),
        }
    }

    /// The answer for a key, where all are searched.
    #[inline(always)]
    fn get_of_few(&self, key: &str) -> Option<&ReadAnswer>
        ensures { option_copied result ≡ answer_in key.now self.now }
    {
        find_answer(self.answers.as_slice(), key)
    }

    /// The answer for a key, `None` where there is none.
    #[inline(always)]
    pub fn get(&self, key: &str) -> Option<&ReadAnswer>
        ensures answer { option_copied result ≡ answer_in key.now self.now }
        ensures in_range { IfSome (option_copied result) ReadFits }
    {
        if self.answers.len() <= MOST_SEARCHED {
            self.get_of_few(key)
        } else {
            self.get_of_many(key)
        }
    }

    /// The least store revision that the answers carry, `HIGHEST_REVISION` where nothing was read.
    pub fn first_carried(&self) -> u64
        ensures first { result ≡ first_of self.now }
        ensures in_range { result ≤ HIGHEST_NUMBER }
    {
        match self.answers.as_slice() {
            [] => HIGHEST_REVISION,
            [first, others @ ..] => least_carried(first.revision, others),
        }
    }

    /// The answers in order. No two are of one key.
    pub fn as_slice(&self) -> &[ReadAnswer]
        ensures answers { result.now ≡ self.now }
        ensures distinct { IsDistinct bytes_eq (map (λ (a : Answer). a.key) self.now) }
    {
        self.answers.as_slice()
    }

    /// The answers in order. It takes no memory.
    pub fn into_answers(self) -> Sequence<ReadAnswer>
        ensures { result ≡ self }
    {
        let ReadSet { answers, places: _ } = self;
        Sequence::of(answers)
    }
}

/// The least of a revision and those that these answers carry.
fn least_carried(first: u64, answers: &[ReadAnswer]) -> u64
    ensures least { result ≡ fold (λ least (b : Answer). min least b.revision) first answers.now }
    ensures below { result ≤ first }
{
    let mut least = first;
    for answer in answers {
        least = least.min(answer.revision);
    }
    least
}

/// A copy of the answers.
fn copy_of(answers: &Vec<ReadAnswer>) -> Result<Vec<ReadAnswer>, AllocError>
    ensures { IfOk result (λ copy. copy.items ≡ answers.now.items) }
{
    let copy = answers.clone()?;
    Ok(copy)
}

/// A copy of the index.
fn copy_of_places(places: &IndexMap<String, usize>) -> Result<IndexMap<String, usize>, AllocError>
    ensures { IfOk result (λ copy. (key : List ℕ) → get_by_text copy key ≡ get_by_text places.now key) }
{
    let copy = places.clone()?;
    Ok(copy)
}

impl Clone for ReadSet {
    ghost use Rattle.std.specs.Prelude.{◌≡◌};

    ghost is_clone = { λ s copy. copy ≡ s };

    fn clone(&self) -> Result<ReadSet, AllocError> {
        let answers = copy_of(&self.answers)?;
        let places = copy_of_places(&self.places)?;
        Ok(ReadSet { answers, places })
    }
}

impl Lookup for ReadSet {
    ghost answers = { look_up };

    #[inline(always)]
    fn value(&self, key: &str) -> Option<&str> {
        match self.get(key) {
            None => None,
            Some(answer) => Some(value_of(&answer.kv)),
        }
    }

    fn mod_rev(&self, key: &str) -> Option<u64> {
        match self.get(key) {
            None => None,
            Some(answer) => Some(mod_rev_of(&answer.kv)),
        }
    }
}
