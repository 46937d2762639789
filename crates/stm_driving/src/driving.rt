//! A runner that is brought to its end.
ghost use Rattle.std.specs.Prelude.{◌≡◌, IfOk, IfErr};
ghost use Rattle.stm_driving.specs.Driving.{HasRunToEnd, IsBrokenOff};

use stm_retry::{EventRefusal, Level, Program, Reply, World, WorldEvent};

/// Starts a program in a world, and takes its steps until it has ended. Nobody else comes between: it commits at once, aborts, or comes to a fault.
///
/// The reply is that of its last step. `BadLimit`: no commit may be sent, and the world is as it was. `OutOfMemory`: an allocation failed; the program may
/// have been started, and made some of its steps, and nothing else has happened. No other refusal comes.
pub fn run_to_end(
    world: &mut World,
    program: Program,
    level: Level,
    attempts: u32,
) -> Result<Reply, EventRefusal>
    ensures ended { IfOk result (λ reply. HasRunToEnd (record { program = program; level = level; limit = attempts }) world.old reply world.new) }
    ensures refused { IfErr result (λ cause. IsBrokenOff (record { program = program; level = level; limit = attempts }) world.old cause world.new) }
{
    let runner = world.start(program, level, attempts)?;
    for _step in 0..u64::MAX {
        match world.step(&WorldEvent::Step { runner }) {
            Ok(reply) => {
                if !world.is_running(runner) {
                    return Ok(reply);
                }
            }
            Err(denied) => return Err(denied.cause),
        }
    }
    Err(EventRefusal::OutOfMemory)
}
