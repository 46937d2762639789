//! What the latest writes are, and what `==` of programs is. Each law stands on a function without a body.
ghost use Rattle.stm_program.specs.SameProgram.{SameProgramsAreEqual};
ghost use Rattle.stm_program.specs.Writes.{LatestWritesAreLast, LatestWritesAreInOrder, LatestWritesAreDistinct};

/// For every key the last of the latest writes is its last write.
pub fn latest_writes_are_last()
    ensures { LatestWritesAreLast }
{}

/// The keys of the latest writes are those that are written, each once, in the order of first writes.
pub fn latest_writes_are_in_order()
    ensures { LatestWritesAreInOrder }
{}

/// No two of the latest writes are of one key.
pub fn latest_writes_are_distinct()
    ensures { LatestWritesAreDistinct }
{}

/// `==` holds of two programs exactly where they are the same program.
pub fn same_programs_are_equal()
    ensures { SameProgramsAreEqual }
{}
