//! What a job had read, as its program looks it up.
ghost use Rattle.std.specs.Prelude.{◌≡◌, option_copied};
ghost use Rattle.stm_compile.specs.Answers.{answer_in};

use stm_history::{HIGHEST_NUMBER, ReadAnswer, mod_rev_of, value_of};
use stm_steps::Lookup;

/// The answers that a job had read. A key is answered by the first of them that is of it.
#[derive(Clone, Copy)]
pub(crate) struct Reads<'a> {
    /// The answers.
    pub(crate) answers: &'a [ReadAnswer],
}

/// The answer for a key, `None` where there is none.
fn answer_for<'a>(answers: &'a [ReadAnswer], key: &str) -> Option<&'a ReadAnswer>
    ensures { option_copied result ≡ answer_in key.now answers.now }
{
    for answer in answers {
        if answer.key.as_str() == key {
            return Some(answer);
        }
    }
    None
}

impl Lookup for Reads<'_> {
    ghost use Rattle.stm_faulted_runs.specs.Reads.{reported_in};

    ghost answers = { λ reads. reported_in reads.answers.now };

    fn value(&self, key: &str) -> Option<&str> {
        match answer_for(self.answers, key) {
            None => None,
            Some(answer) => Some(value_of(&answer.kv)),
        }
    }

    fn mod_rev(&self, key: &str) -> Option<u64> {
        match answer_for(self.answers, key) {
            None => None,
            Some(answer) => Some(mod_rev_of(&answer.kv).min(HIGHEST_NUMBER)),
        }
    }
}
