//! The entry of a commit.
ghost use Rattle.std.specs.Prelude.{◌≡◌};
ghost use Rattle.stm_entries.specs.Entered.{answers_kept};
ghost use Rattle.stm_journal.specs.CommitEntry.{kept_of, entry_of_kept};

use std::alloc::Global;
use stm_attempt::{ReadSet, Ready};
use stm_entries::Entry;
use stm_history::{Change, ReadAnswer, Sequence};
use stm_program::{Level, Program};
use stm_steps::{TraceItem, Value};

/// The answers that an entry keeps at a level. It takes no memory.
fn answers_kept(alloc: Global, level: Level, answers: ReadSet) -> Sequence<ReadAnswer>
    ensures { result ≡ answers_kept level answers }
{
    match level {
        Level::SerializableSnapshot => Sequence::new(alloc),
        Level::Serializable => Sequence::new(alloc),
        Level::RepeatableReads => Sequence::new(alloc),
        Level::ReadCommitted => answers.into_answers(),
    }
}

/// What the entry of a commit keeps of its attempt.
#[derive(Drop)]
pub(crate) struct Kept {
    program: Program,
    level: Level,
    answers: Sequence<ReadAnswer>,
    output: Sequence<Value>,
    trace: Sequence<TraceItem>,
}

impl Kept {
    /// The entry of a commit, after which the store's revision is this. It takes no memory.
    pub(crate) fn into_entry(self, revision: u64) -> Entry
        ensures { result ≡ entry_of_kept self revision }
    {
        let Kept {
            program,
            level,
            answers,
            output,
            trace,
        } = self;
        Entry::Program {
            program,
            level,
            answers,
            output,
            trace,
            revision,
        }
    }
}

/// What the entry of an attempt's commit keeps of it, and the changes that its writes are. It takes no memory.
pub(crate) fn parts_of(alloc: Global, ready: Ready) -> (Kept, Vec<Change>)
    ensures kept { result.0 ≡ kept_of ready }
    ensures changes { result.1.items ≡ ready.writes }
{
    let Ready {
        program,
        level,
        answers,
        output,
        trace,
        writes,
    } = ready;
    let kept = Kept {
        program,
        level,
        answers: answers_kept(alloc, level, answers),
        output,
        trace,
    };
    (kept, writes.into_changes())
}
