//! What each bound is.
ghost use Rattle.std.specs.Prelude.{◌≡◌};
ghost use Rattle.stm_history.specs.declared.revisions.TheConstants.{HIGHEST_REVISION, HIGHEST_NUMBER};
ghost use Rattle.stm_program.specs.declared.limits.TheConstants.{MAX_DEPTH, MAX_NODES, MAX_PREFETCH, MAX_TEXT, MAX_TURNS, MAX_VARIABLE, MAX_LEASE};
ghost use Rattle.stm_steps.specs.declared.session.TheConstants.{TURN_LIMIT};
ghost use Rattle.stm_steps.specs.declared.variables.TheConstants.{VARIABLE_COUNT};
ghost use Rattle.stm_leases.specs.declared.bounds.TheConstants.{HIGHEST_ID, HIGHEST_TTL};
ghost use Rattle.stm_outcome.specs.declared.check.TheConstants.{MOST_OPERATIONS};
ghost use Rattle.stm_recipes.specs.declared.names.TheConstants.{MAX_NAME};
ghost use Rattle.stm_json.specs.declared.limits.TheConstants.{MOST_BYTES};
ghost use Rattle.stm_devices.specs.declared.transfer.TheConstants.{MOST_READ};
ghost use Rattle.stm_texts.specs.declared.events.TheConstants.{MOST_EVENTS, HIGHEST_LIMIT};
ghost use Rattle.stm_terms.specs.declared.limits.TheConstants.{MOST_BRACKETS};
ghost use Rattle.stm_arguments.specs.declared.numbers.TheConstants.{LEAST_WIDTH, MOST_ATTEMPTS, MOST_RUNS, MOST_WIDTH, MOST_WORKERS as MOST_NAMED_WORKERS, USUAL_BUDGET};
ghost use Rattle.stm_workers.specs.declared.run.TheConstants.{MOST_WORKERS};

/// A revision is at most one below the highest number of 64 bits with a sign, and every other number is at most that.
pub fn bounds_of_numbers()
    ensures revision { HIGHEST_REVISION ≡ 9223372036854775806 }
    ensures number { HIGHEST_NUMBER ≡ 9223372036854775807 }
{}

/// A program's nodes are at most 32 deep, and at most 4096; its list has at most 128 keys; a text of it has at most 65536 bytes; a loop names
/// at most 1000 turns; its variables have the numbers 0 to 15; a put names a lease up to the highest number.
pub fn bounds_of_programs()
    ensures depth { MAX_DEPTH ≡ 32 }
    ensures nodes { MAX_NODES ≡ 4096 }
    ensures listed { MAX_PREFETCH ≡ 128 }
    ensures text { MAX_TEXT ≡ 65536 }
    ensures turns { MAX_TURNS ≡ 1000 }
    ensures variable { MAX_VARIABLE ≡ 15 }
    ensures lease { MAX_LEASE ≡ 9223372036854775807 }
{}

/// A run has at most 10000 turns, and 16 variables.
pub fn bounds_of_runs()
    ensures turns { TURN_LIMIT ≡ 10000 }
    ensures variables { VARIABLE_COUNT ≡ 16 }
{}

/// A lease has an id up to the highest number, and lives at most 9000000000 seconds.
pub fn bounds_of_leases()
    ensures id { HIGHEST_ID ≡ 9223372036854775807 }
    ensures ttl { HIGHEST_TTL ≡ 9000000000 }
{}

/// Each list of a transaction has at most 128 elements, where the store has no limit of its own.
pub fn bounds_of_transactions()
    ensures { MOST_OPERATIONS ≡ 128 }
{}

/// A name of a recipe has at most 1024 bytes.
pub fn bounds_of_recipes()
    ensures { MAX_NAME ≡ 1024 }
{}

/// A text has at most 16777216 bytes, for which a device is read at most once more often.
pub fn bounds_of_texts()
    ensures bytes { MOST_BYTES ≡ 16777216 }
    ensures reads { MOST_READ ≡ 16777217 }
{}

/// A scenario has at most 100000 events, and a start names at most 4294967295 commits.
pub fn bounds_of_scenarios()
    ensures events { MOST_EVENTS ≡ 100000 }
    ensures limit { HIGHEST_LIMIT ≡ 4294967295 }
{}

/// At most 16 threads run jobs.
pub fn bounds_of_threads()
    ensures { MOST_WORKERS ≡ 16 }
{}

/// At most 127 brackets of a source are open at once.
pub fn bounds_of_sources()
    ensures { MOST_BRACKETS ≡ 127 }
{}

/// A command line names at most 16 workers, at most 1000000 runs, at most 4294967295 commits and a width of 20 to 1000, and a search that is given no budget
/// takes 1500000 events.
pub fn bounds_of_command_lines()
    ensures workers { MOST_NAMED_WORKERS ≡ 16 }
    ensures runs { MOST_RUNS ≡ 1000000 }
    ensures attempts { MOST_ATTEMPTS ≡ 4294967295 }
    ensures least_width { LEAST_WIDTH ≡ 20 }
    ensures most_width { MOST_WIDTH ≡ 1000 }
    ensures budget { USUAL_BUDGET ≡ 1500000 }
{}
