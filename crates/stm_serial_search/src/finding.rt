//! Whether rules are kept after every schedule, by the serial runs alone.
ghost use Rattle.std.specs.Prelude.{◌≡◌, None, length, IfOk, IfSome};
ghost use Rattle.stm_schedules.specs.Keeping.{AllKeep};
ghost use Rattle.stm_serial.specs.Serial.{AreForeign, IsComparing};
ghost use Rattle.stm_serial_search.specs.Search.{AreNone, AreProgramsOf, IsBadRun, keep_all};

use crate::following::{Follower, Halt};
use crate::looking::look;
use std::alloc::{AllocError, Global};
use stm_history::Sequence;
use stm_program::Program;
use stm_retry::World;
use stm_schedules::Move;
use stm_world::WorldEvent;

/// Of so many runners none was run.
fn none_taken(alloc: Global, count: usize) -> Result<Vec<bool>, AllocError>
    ensures sized { IfOk result (λ taken. length taken.items ≡ count) }
    ensures none { IfOk result (λ taken. AreNone taken.items) }
{
    let mut taken = Vec::new(alloc);
    for index in 0..count {
        taken.push(false)?;
    }
    Ok(taken)
}

/// The first serial run after which one of these rules is not kept: of the programs of this world's runners, and of others that have these events yet
/// to bring.
///
/// Where none is found, and serial runs are enough, each is kept after every schedule, however long it is. The follower is asked before each
/// move.
pub(crate) fn find_bad_order<F: Follower>(
    alloc: Global,
    world: &World,
    others: &[WorldEvent],
    programs: &[Program],
    rules: &[Program],
    follower: &mut F,
) -> Result<Option<Sequence<Move>>, Halt>
    requires programs { AreProgramsOf programs.now world.now.runners }
    requires foreign { AreForeign others.now }
    ensures none { IfOk result (λ found. found ≡ None → IsComparing (record { world = world.now; others = others.now })
        → AllKeep (keep_all rules.now) (record { world = world.now; others = others.now })) }
    ensures some { IfOk result (λ found. IfSome found (λ run. IsBadRun rules.now (record { world = world.now; others = others.now }) run)) }
{
    let count = world.runner_count();
    let taken = none_taken(alloc, count)?;
    let depth = count as u64 + others.len() as u64;
    let found = look(
        alloc,
        rules,
        programs,
        world,
        taken.as_slice(),
        others,
        depth,
        follower,
    );
    drop(taken);
    let found = found?;
    Ok(found)
}
