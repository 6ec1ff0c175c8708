ghost use Rattle.std.specs.Prelude.{◌≡◌, Some, false};
ghost use Rattle.file_log.specs.Seat.{MayCall};
ghost use Rattle.file_log.specs.State.{state_of};
ghost use Rattle.file_model.specs.Seeing.{seen_of};
ghost use Rattle.file_model.specs.Steps.{Stepped, IsPlace};
ghost use Rattle.sim_world.specs.Played.{concerns};
ghost use Rattle.sim_world.specs.Stages.{InOrder};

use crate::stage::Stage;
use crate::turn::Turn;
use cache_types::Who;
use file_log::{Call, Reply};
use file_model::{Fate, Progress};

impl Stage {
    /// Whether a turn is one of the outsider's process.
    pub(crate) fn concerns(&self, turn: &Turn) -> bool
        ensures { result ≡ concerns self.now.outsider turn.now }
    {
        let Some(me) = self.outsider else {
            return false;
        };
        match turn.process() {
            Some(process) => process == me.process,
            None => false,
        }
    }

    /// Makes one item of a call of the outsider, of a write the byte that has this number. It isn't made to
    /// fail, but can be refused memory.
    pub fn own_step(&mut self, me: Who, call: &Call, done: u64) -> Progress
        requires order { InOrder self.old }
        requires outsider { self.old.outsider ≡ Some me }
        requires may { MayCall (seen_of me self.old.world.past) call.now }
        requires place { IsPlace call.now done }
        requires alive { (state_of self.old.world.past).halted me.process ≡ false }
        ensures order { InOrder self.new }
        ensures outsider { self.new.outsider ≡ self.old.outsider }
        ensures stepped { Stepped me call.now done result self.old.world self.new.world }
        ensures unfailed { result ≡ Progress.Reply Reply.Failed → ⊥ }
    {
        self.world.step(me, call, done, Fate::Go)
    }
}
