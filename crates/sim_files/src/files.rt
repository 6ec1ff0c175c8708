ghost use Rattle.std.specs.Prelude.{◌≡◌, [], Some, IfOk};
ghost use Rattle.file_log.specs.Seat.{IsIdle, MayCall};
ghost use Rattle.sim_files.specs.Seats.{Tells, OthersKeep};

use crate::acts::answer;
use cache_types::{NoMemory, Who};
use file_log::{Call, Reply};
use file_model::World;
use files_api::Files;
use sim_world::{Stage, Turn};
use std::alloc::Global;
use std::marker::Model;

/// Files in memory that one seat calls while other seats do as a schedule says. All that is done to them is
/// told, from an empty disk on.
///
/// Before each own item of the log, so also between two bytes of a write, the schedule's turns are played
/// up to and including its next `Own`, or to its end. Outside of an operation a write goes on without them
/// once it has begun, since want of memory isn't told there. A turn of the seat's own process does nothing,
/// and so does one for which there is no memory. No own call fails but for want of memory.
///
/// Whatever the seat does, no other seat is the first to break a rule among seats
/// ([`others_keep`](SimFiles::others_keep)).
#[derive(Debug)]
pub struct SimFiles {
    stage: Stage,
    schedule: Vec<Turn>,
    next: usize,
    me: Who,
}

impl Drop for SimFiles {
    fn drop(self) {
        let SimFiles {
            stage: _stage,
            schedule: _schedule,
            next: _,
            me: _,
        } = self;
    }
}

impl Model for SimFiles {
    ghost use Rattle.sim_files.specs.Files.{Shown, view_of, IsKept};

    ghost Value = { Shown };

    ghost view = { view_of };

    ghost invariant = { IsKept };
}

impl SimFiles {
    /// An empty disk, on which nothing was done, and a schedule for all seats of other processes.
    pub fn new(alloc: Global, me: Who, schedule: Vec<Turn>) -> Result<SimFiles, NoMemory>
        ensures history { IfOk result (λ f. ⟦<SimFiles as Files>⟧.history f ≡ Some (record { start = []; log = [] })) }
        ensures me { IfOk result (λ f. ⟦<SimFiles as Files>⟧.me f ≡ me) }
        ensures idle { IfOk result (λ f. IsIdle (⟦<SimFiles as Files>⟧.seen f)) }
        ensures faults { IfOk result (λ f. ⟦<SimFiles as Files>⟧.faults f ≡ 0) }
    {
        Ok(SimFiles {
            stage: Stage::new(alloc, Some(me)),
            schedule,
            next: 0,
            me,
        })
    }

    /// The world as it is.
    pub fn world(&self) -> &World
        ensures { ⟦<SimFiles as Files>⟧.history self.now ≡ Some result.now.past }
    {
        &self.stage.world
    }

    /// Makes a call, as [`Files::call`] does. None is answered Failed.
    pub fn make(&mut self, call: Call) -> Reply
        requires may { MayCall (⟦<SimFiles as Files>⟧.seen self.old) call }
        ensures me { ⟦<SimFiles as Files>⟧.me self.new ≡ ⟦<SimFiles as Files>⟧.me self.old }
        ensures tells { Tells (⟦<SimFiles as Files>⟧.me self.old) call result self.old.world.past self.new.world.past }
        ensures never_failed { result ≡ Reply.Failed → ⊥ }
    {
        let schedule = self.schedule.as_slice();
        answer(&mut self.stage, schedule, &mut self.next, self.me, &call)
    }

    /// What is known of the others at any time: the log can be, no seat but the one that calls is the first
    /// to break a rule among seats, and where that one isn't either, no place breaks one. Each operation of
    /// another seat makes few calls, and ends with an answer of its request.
    pub fn others_keep(&self)
        ensures { OthersKeep self.now.me self.now.world.past }
    {
        let _stage = &self.stage;
    }
}

impl Files for SimFiles {
    ghost use Rattle.std.specs.Prelude.{Some};
    ghost use Rattle.file_model.specs.Seeing.{seen_of};

    ghost history = { λ f. Some f.world.past };

    ghost me = { λ f. f.me };

    ghost seen = { λ f. seen_of f.me f.world.past };

    ghost faults = { λ f. 0 };

    fn call(&mut self, c: Call) -> Reply {
        self.make(c)
    }

    fn known(&self) {}
}
