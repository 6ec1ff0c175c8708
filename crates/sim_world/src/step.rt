ghost use Rattle.std.specs.Prelude.{◌≡◌, ◌&&◌, false, None, OnOk, OnErr, if◌then◌else◌};
ghost use Rattle.cache_types.specs.Seats.{same_seat};
ghost use Rattle.cache_types.specs.declared.seat.Who.{Who};
ghost use Rattle.sim_world.specs.Played.{Plays, Refused, concerns};
ghost use Rattle.sim_world.specs.Stages.{InOrder, PassesBy, scene_of};
ghost use Rattle.sim_world.specs.Steps.{IsBrought, is_failure};
ghost use Rattle.sim_world.specs.Tables.{failing_of as the_failing};
ghost use Rattle.sim_world.specs.declared.operation.Brought.TheVariants as brings;
ghost use Rattle.sim_world.specs.declared.turn.Turn.{Turn};

use crate::failing::{Failing, failing_of, use_up};
use crate::operation::Brought;
use crate::seats::{put_in, take_out};
use crate::stage::Stage;
use cache_types::{NoMemory, Who};

/// Uses up the failure that a step brought. A step that brought nothing that the schedule asks for is
/// refused.
fn settle(failing: &mut Vec<Failing>, who: Who, brought: Brought) -> Result<(), NoMemory>
    ensures brought { OnOk result (IsBrought brought) }
    ensures lack { OnErr result (brought ≡ brings.Lack) }
    ensures failing { (w : Who) → the_failing failing.new.items w ≡ (if is_failure brought && same_seat w who then None else the_failing failing.old.items w) }
{
    match brought {
        Brought::Item => Ok(()),
        Brought::Failure => {
            use_up(failing, who);
            Ok(())
        }
        Brought::Lack => Err(NoMemory),
    }
}

impl Stage {
    /// Makes the next item of a seat, if it is at anything. Where there is no memory that the schedule
    /// doesn't take away, the seat goes on as after a call that was refused memory, and that is answered.
    pub(crate) fn step(&mut self, who: Who) -> Result<(), NoMemory>
        requires order { InOrder self.old }
        requires elsewhere { concerns self.old.outsider (Turn.Step who) ≡ false }
        ensures order { InOrder self.new }
        ensures plays { OnOk result (Plays (scene_of self.old) (Turn.Step who) (scene_of self.new)) }
        ensures refused { OnErr result (Refused (scene_of self.old) (Turn.Step who) (scene_of self.new)) }
        ensures outsider { self.new.outsider ≡ self.old.outsider }
        ensures grows { PassesBy self.old.outsider self.old.world self.new.world }
    {
        if self.world.is_halted(who.process) {
            return Ok(());
        }
        let Some(task) = take_out(&mut self.seats, who) else {
            return Ok(());
        };
        let failing = failing_of(&self.failing, who);
        let moved = task.advance(&mut self.world, who, failing);
        put_in(&mut self.seats, who, moved.task);
        settle(&mut self.failing, who, moved.brought)
    }
}
