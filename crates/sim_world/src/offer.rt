ghost use Rattle.std.specs.Prelude.{◌≡◌, ◌↔◌, false, IsTrue, OnOk, OnErr};
ghost use Rattle.sim_world.specs.Played.{Plays, MayOffer, concerns};
ghost use Rattle.sim_world.specs.Stages.{InOrder, PassesBy, scene_of};
ghost use Rattle.sim_world.specs.declared.turn.Turn.TheVariants as turns;

use crate::built::{is_built, is_put};
use crate::jobs::{Job, count_of, front_ticket, offered_to, set_offered, take_front};
use crate::seats::{Task, put_in};
use crate::stage::Stage;
use cache_types::{NoMemory, Request, Who};
use file_log::{Ticket, request_known};

/// So many jobs of a process may wait.
const MAX_WAITING: usize = 32;

impl Stage {
    /// Whether a request can come into a process's queue.
    fn may_offer(&self, process: u32, request: &Request) -> bool
        requires { InOrder self.now }
        ensures { IsTrue result ↔ MayOffer (scene_of self.now) process request.now }
    {
        self.goes_on(process)
            && count_of(&self.jobs, process) < MAX_WAITING
            && is_put(request)
            && is_built(request)
    }

    /// Puts a job into a process's queue.
    pub(crate) fn offer(&mut self, process: u32, request: &Request) -> Result<(), NoMemory>
        requires { InOrder self.old }
        ensures order { InOrder self.new }
        ensures plays { OnOk result (Plays (scene_of self.old) (turns.Offer process request.now) (scene_of self.new)) }
        ensures refused { OnErr result (scene_of self.new ≡ scene_of self.old) }
        ensures outsider { self.new.outsider ≡ self.old.outsider }
        ensures grows { PassesBy self.old.outsider self.old.world self.new.world }
    {
        if !self.may_offer(process, request) {
            return Ok(());
        }
        let number = offered_to(&self.offered, process);
        let Some(count) = number.checked_add(1) else {
            return Err(NoMemory);
        };
        let ticket = Ticket { side: 0, number };
        let told = request.copy(self.world.alloc())?;
        let request = request.copy(self.world.alloc())?;
        request_known(&told);
        self.jobs.reserve(1)?;
        self.offered.reserve(1)?;
        self.world.queued(process, ticket, told)?;
        set_offered(&mut self.offered, process, count);
        let _added = self.jobs.push(Job {
            process,
            ticket,
            request,
        });
        Ok(())
    }

    /// Gives the front job of its process's queue to a seat that is at nothing.
    pub(crate) fn take(&mut self, who: Who) -> Result<(), NoMemory>
        requires order { InOrder self.old }
        requires elsewhere { concerns self.old.outsider (turns.Take who) ≡ false }
        ensures order { InOrder self.new }
        ensures plays { OnOk result (Plays (scene_of self.old) (turns.Take who) (scene_of self.new)) }
        ensures refused { OnErr result (scene_of self.new ≡ scene_of self.old) }
        ensures outsider { self.new.outsider ≡ self.old.outsider }
        ensures grows { PassesBy self.old.outsider self.old.world self.new.world }
    {
        if !self.is_free(who) {
            return Ok(());
        }
        let Some(ticket) = front_ticket(&self.jobs, who.process) else {
            return Ok(());
        };
        self.seats.reserve(1)?;
        self.world.taken(who, ticket)?;
        if let Some(job) = take_front(&mut self.jobs, who.process) {
            put_in(&mut self.seats, who, Some(Task::Asked(job.request)));
        }
        Ok(())
    }
}
