ghost use Rattle.std.specs.Prelude.{IfOk};
ghost use Rattle.sim_world.specs.Plays.{IsPlayed};

use crate::stage::Stage;
use crate::turn::Turn;
use cache_types::NoMemory;
use file_model::World;
use std::alloc::Global;

/// Plays a schedule from an empty world on: each seat does the requests that it is given, one item of the
/// log a step.
///
/// The log of the world follows the schedule, and no place of it breaks a rule among seats. Each operation
/// makes few calls, all in its store's root, and ends with an answer of its request whose cause is among its
/// own items. A failure is in the log only where the schedule has one.
///
/// # Errors
///
/// `NoMemory` where there was no memory that the schedule didn't take away.
pub fn play(alloc: Global, schedule: &[Turn]) -> Result<World, NoMemory>
    ensures { IfOk result (λ world. IsPlayed schedule.now world.past) }
{
    let mut stage = Stage::new(alloc, None);
    for turn in schedule {
        stage.turn(turn)?;
    }
    Ok(stage.into_world())
}
