//! The laws of files of scenarios. Each function does nothing: its contract is the law.
ghost use Rattle.stm_lasting.specs.Laws.{OpensToOne, ServesTheKept, OpensToTheSame};

/// A file opens to one world.
pub fn opens_to_one()
    ensures { OpensToOne }
{}

/// A world was kept, one more text was in flight, a crash came, and the file was opened: the world is the one that was kept, or the one after the text.
pub fn serves_the_kept()
    ensures { ServesTheKept }
{}

/// What is left of a file that opens to the same records opens to the same world.
pub fn opens_to_the_same()
    ensures { OpensToTheSame }
{}
