ghost use Rattle.std.specs.Prelude.{◌≡◌, false};
ghost use Rattle.file_log.specs.Log.{own};
ghost use Rattle.file_log.specs.State.{state_of};

use crate::acts::answer;
use cache_types::{Bytes, Name, NoMemory, Who};
use file_log::{Call, Reply};
use file_model::World;
use files_api::Files;
use std::alloc::Global;

/// Files in memory that one seat has to itself: every item of their log is its own, and no call fails other
/// than for want of memory.
#[derive(Debug)]
pub struct LoneFiles {
    world: World,
    me: Who,
    ghost goes_on: { (state_of world.past).halted me.process ≡ false },
    ghost alone: { own me world.past.log ≡ world.past.log },
}

impl Drop for LoneFiles {
    fn drop(self) {
        let LoneFiles {
            world: _world,
            me: _,
        } = self;
    }
}

impl LoneFiles {
    ghost use Rattle.std.specs.Prelude.{◌≡◌, Some, [], IfOk};
    ghost use Rattle.file_log.specs.Seat.{IsIdle};
    ghost use Rattle.file_model.specs.Starts.{NamesDiffer};
    ghost use Rattle.memory_files.specs.Lone.{IsLone};

    /// These files at the start, and nothing done.
    pub fn on_disk(alloc: Global, me: Who, files: Vec<(Name, Bytes)>) -> Result<LoneFiles, NoMemory>
        requires { NamesDiffer files.items }
        ensures history { IfOk result (λ f. ⟦<LoneFiles as Files>⟧.history f ≡ Some (record { start = files.items; log = [] })) }
        ensures me { IfOk result (λ f. ⟦<LoneFiles as Files>⟧.me f ≡ me) }
        ensures idle { IfOk result (λ f. IsIdle (⟦<LoneFiles as Files>⟧.seen f)) }
    {
        let world = World::on_disk(alloc, files)?;
        Ok(LoneFiles { world, me })
    }

    /// What is always known of such files: their log is told, and every item of it is the seat's own.
    pub fn lone(&self)
        ensures { IsLone (⟦<LoneFiles as Files>⟧.me self.now) (⟦<LoneFiles as Files>⟧.history self.now) }
    {}
}

impl Files for LoneFiles {
    ghost use Rattle.std.specs.Prelude.{Some};
    ghost use Rattle.memory_files.specs.Seats.{seen_in};

    ghost history = { λ f. Some f.world.past };

    ghost me = { λ f. f.me };

    ghost seen = { λ f. seen_in f.me f.world.past };

    ghost faults = { λ f. 0 };

    fn call(&mut self, c: Call) -> Reply {
        answer(&mut self.world, self.me, c)
    }

    fn known(&self) {}
}
