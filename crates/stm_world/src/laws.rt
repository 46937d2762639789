//! The laws of worlds. Each function does nothing: its contract is the law.
ghost use Rattle.stm_world.specs.Appended.{EventsAppend};
ghost use Rattle.stm_world.specs.Asked.{AnswersAreTheReads};
ghost use Rattle.stm_world.specs.Causes.{CausesOfWorlds};
ghost use Rattle.stm_world.specs.Headline.{Headline, HeadlineGoesOn, OneState, ReadOnce};
ghost use Rattle.stm_world.specs.Joined.{RunsGoOn};
ghost use Rattle.stm_world.specs.NeverOutOfMemory.{NeverOutOfMemory};
ghost use Rattle.stm_world.specs.OneReply.{OneRightReply};
ghost use Rattle.stm_world.specs.ReadsNow.{CommitsReadWhatIsNow};
ghost use Rattle.stm_world.specs.Restored.{RestoredWorldsAreSound};
ghost use Rattle.stm_world.specs.Sound.{WorldsAreSound};

/// The headline. Over every list of events, in any interleaving of any number of runners, from every
/// opening, its revision and its limit of operations: each event has its reply, and nothing else was replied; each reply is right after the lines
/// before it, the store and the runners are what the log says, and the entries replay to its history and live leases,
/// each legal at its point.
///
/// So a commit that succeeds at a comparing level answers, and changes the store, exactly as its program run
/// alone on the store of that moment; one at ReadCommitted applies exactly its program's writes on the
/// answers that it read; a commit that fails changes nothing; and a refusal comes only for its cause.
pub fn headline()
    ensures { Headline }
{}

/// The headline of a world that has run before: where it holds of what the world was asked and has replied so far, it
/// holds with these events and their replies added. It holds of a world that opens, with no events and no replies (`headline`).
pub fn headline_goes_on()
    ensures { HeadlineGoesOn }
{}

/// Two replies to an event that are right after the same lines are one. So where each line of a log is right, its
/// replies are those of the world: being right pins each reply, and another one is wrong.
pub fn right_replies_are_one()
    ensures { OneRightReply }
{}

/// Later events are run from the world that earlier ones lead to: their replies stand after the earlier ones, and so do
/// their lines in a log. So what holds of every list of events holds at each point within one.
#[tactic(auto, using(crate::proofs::Joined::runs_go_on))]
pub fn runs_go_on()
    ensures { RunsGoOn }
{}

/// What an attempt at a serializable level has read is true, and of one revision, also where its commit will
/// fail. The run on it is the beginning of the program's run on the state at that revision: an abort or a
/// fault is that run's end, and the trace so far is a beginning of its trace.
pub fn answers_are_of_one_state()
    ensures { OneState }
{}

/// No attempt reads a key twice, at any level, where its program's list has no key twice, which is so of every program that fits.
pub fn keys_are_read_once()
    ensures { ReadOnce }
{}

/// No call of a store and no commit is refused as `OutOfMemory` by its definition, so that no right reply refuses an event
/// as out of memory, or ends a run by it. Only code runs out of memory, and its contracts say what is left then.
#[tactic(auto, using(crate::proofs::NeverOutOfMemory::never_out_of_memory))]
pub fn out_of_memory_is_never_right()
    ensures { NeverOutOfMemory }
{}

/// Where a right reply refuses an event, the cause is `BadLimit` for a start, `NoRunner` for a step, and a cause of the store for any other
/// event; where it ends a run by a refusal, the cause is one of the store. A world gives no other.
#[tactic(auto, using(crate::proofs::Causes::causes_of_worlds))]
pub fn causes_are_of_the_event()
    ensures { CausesOfWorlds }
{}

/// A world opens sound, and every step keeps it so: its entries replay to its store, each legal at its point,
/// what each runner that has not ended has read, or has prefetched for it, is true of the store's history, and
/// nothing that is pending for a watcher that is not lost is compacted. So does an advance that was cut short after
/// some expiries.
///
/// In a sound world the revision that a runner's next fetch names is one that the store has reached.
#[tactic(auto, using(crate::proofs::Sound::worlds_are_sound))]
pub fn worlds_are_sound()
    ensures { WorldsAreSound }
{}

/// A world opens sound, too, where its store opens with keys and leases: the entries that it begins with are the grants of its leases.
pub fn restored_worlds_are_sound()
    ensures { RestoredWorldsAreSound }
{}

/// In a sound world, where the program of the runner that is stepped has come to its end at a level that compares, and no compare of its commit
/// fails, each value and modification revision that it has read is that of its key now, also where the store refuses the commit.
#[tactic(auto, using(crate::proofs::ReadsNow::reads_are_now))]
pub fn commits_read_what_is_now()
    ensures { CommitsReadWhatIsNow }
{}

/// From any sound world, also one that has run before, events only append entries: these are legal, each at its
/// point, from the store as it was, and replay to the store as it is.
#[tactic(auto, using(crate::proofs::Appending::events_append))]
pub fn events_append()
    ensures { EventsAppend }
{}

/// Where a program's run ends on answers to its list, and after them answers each of which was added when the run wanted its key, the keys
/// of the answers are those of the list and then the others that the run reads, in the order of its first reads.
///
/// The answers that a commit was made on are such, and the headline says so of each.
#[tactic(auto, using(crate::proofs::Asked::answers_are_the_reads))]
pub fn answers_are_the_reads()
    ensures { AnswersAreTheReads }
{}
