ghost use Rattle.std.specs.Prelude.{◌≡◌, ◌↔◌, [], None, false, true, IsTrue, IfOk, OnOk, OnErr};
ghost use Rattle.cache_types.specs.declared.name.Name.TheVariants.{Ro, RoIdx};
ghost use Rattle.file_log.specs.State.{state_of, disk_of};
ghost use Rattle.op_machine.specs.Requests.{IsBuilt};
ghost use Rattle.sim_world.specs.Played.{Plays, GoesOn, IsFree, IsAbsent, Refused, concerns};
ghost use Rattle.sim_world.specs.Scene.{opening};
ghost use Rattle.sim_world.specs.declared.turn.Turn.TheVariants as turns;

use crate::built::is_built;
use crate::failing::{Failing, fail_next};
use crate::jobs::{Job, Offered};
use crate::seats::{Seat, Task, forget_all, is_idle, put_in};
use crate::turn::Turn;
use cache_types::{Bytes, Name, NoMemory, Request, Text, Who};
use file_model::World;
use std::alloc::Global;

/// What a schedule has come to: the world, the busy seats, the failures that wait for calls, and the jobs
/// that wait in queues.
///
/// One seat may be an outsider: it makes its own calls between the turns, by [`own_step`](Stage::own_step),
/// and may break rules among seats. Every other seat follows its machine and is never the first to break
/// one. No turn is played for the outsider's process, so the schedule neither stops it nor gives it a job.
#[derive(Debug)]
pub struct Stage {
    pub world: World,
    pub outsider: Option<Who>,
    pub seats: Vec<Seat>,
    pub failing: Vec<Failing>,
    pub jobs: Vec<Job>,
    pub offered: Vec<Offered>,
}

impl Drop for Stage {
    fn drop(self) {
        let Stage {
            world: _world,
            outsider: _,
            seats: _seats,
            failing: _failing,
            jobs: _jobs,
            offered: _offered,
        } = self;
    }
}

/// The same bytes in memory of their own, where there are any.
fn copy_text(text: &Option<Bytes>) -> Result<Option<Bytes>, NoMemory>
    ensures { IfOk result (λ t. t ≡ text.now) }
{
    match text {
        None => Ok(None),
        Some(text) => Ok(Some(text.copy()?)),
    }
}

impl Stage {
    ghost use Rattle.sim_world.specs.Stages.{InOrder, PassesBy, scene_of};

    /// A new world, with nothing under way, and the seat that calls from outside of the schedule, if one
    /// does. Takes no memory.
    pub fn new(alloc: Global, outsider: Option<Who>) -> Stage
        ensures order { InOrder result }
        ensures scene { scene_of result ≡ opening }
        ensures world { result.world ≡ record { past = record { start = []; log = [] }; clock = 0 } }
        ensures outsider { result.outsider ≡ outsider }
    {
        Stage {
            world: World::new(alloc),
            outsider,
            seats: Vec::new(alloc),
            failing: Vec::new(alloc),
            jobs: Vec::new(alloc),
            offered: Vec::new(alloc),
        }
    }

    /// The world that it has come to.
    pub(crate) fn into_world(self) -> World
        ensures { result ≡ self.world }
    {
        let Stage {
            world,
            outsider: _,
            seats: _seats,
            failing: _failing,
            jobs: _jobs,
            offered: _offered,
        } = self;
        world
    }

    /// Plays one turn. One of the outsider's process does nothing.
    ///
    /// The outsider may rely on this: the items that come are none of its own, and none of them stops its
    /// process.
    ///
    /// # Errors
    ///
    /// `NoMemory` where there was no memory that the schedule didn't take away. Then nothing was played,
    /// except that a seat whose step had no memory for its call goes on as after a call that was refused
    /// memory, and the log may have that. The stage stays in order, and what the outsider relies on holds.
    pub fn turn(&mut self, turn: &Turn) -> Result<(), NoMemory>
        requires { InOrder self.old }
        ensures order { InOrder self.new }
        ensures skips { concerns self.old.outsider turn.now ≡ true → self.new ≡ self.old }
        ensures plays { concerns self.old.outsider turn.now ≡ false → OnOk result (Plays (scene_of self.old) turn.now (scene_of self.new)) }
        ensures refused { OnErr result (Refused (scene_of self.old) turn.now (scene_of self.new)) }
        ensures outsider { self.new.outsider ≡ self.old.outsider }
        ensures grows { PassesBy self.old.outsider self.old.world self.new.world }
    {
        if self.concerns(turn) {
            return Ok(());
        }
        match turn {
            Turn::Start { who, request } => self.start(*who, request),
            Turn::Step { who } => self.step(*who),
            Turn::Fail { who, memory } => self.fail(*who, *memory),
            Turn::Offer { process, request } => self.offer(*process, request),
            Turn::Take { who } => self.take(*who),
            Turn::Stop { process } => self.stop(*process),
            Turn::Install {
                root,
                name,
                main,
                index,
            } => self.install(*root, name, main, index),
            Turn::SetList { text } => self.set_list(text),
            Turn::Clock { now } => self.set_clock(*now),
            Turn::Own => Ok(()),
        }
    }

    /// Whether a process wasn't stopped.
    pub(crate) fn goes_on(&self, process: u32) -> bool
        requires { InOrder self.now }
        ensures scene { IsTrue result ↔ GoesOn (scene_of self.now) process }
        ensures world { IsTrue result ↔ ((state_of self.now.world.past).halted process ≡ false) }
    {
        !self.world.is_halted(process)
    }

    /// Whether a seat of a process that goes on is at nothing.
    pub(crate) fn is_free(&self, who: Who) -> bool
        requires { InOrder self.now }
        ensures { IsTrue result ↔ IsFree (scene_of self.now) who }
    {
        self.goes_on(who.process) && is_idle(&self.seats, who)
    }

    /// Whether a seat can be given a request.
    fn may_start(&self, who: Who, request: &Request) -> bool
        requires { InOrder self.now }
        ensures { IsTrue result ↔ (IsFree (scene_of self.now) who × IsBuilt request.now) }
    {
        self.is_free(who) && is_built(request)
    }

    /// Gives a request to a seat that is at nothing.
    fn start(&mut self, who: Who, request: &Request) -> Result<(), NoMemory>
        requires { InOrder self.old }
        ensures order { InOrder self.new }
        ensures plays { OnOk result (Plays (scene_of self.old) (turns.Start who request.now) (scene_of self.new)) }
        ensures refused { OnErr result (scene_of self.new ≡ scene_of self.old) }
        ensures outsider { self.new.outsider ≡ self.old.outsider }
        ensures grows { PassesBy self.old.outsider self.old.world self.new.world }
    {
        if !self.may_start(who, request) {
            return Ok(());
        }
        let request = request.copy(self.world.alloc())?;
        self.seats.reserve(1)?;
        put_in(&mut self.seats, who, Some(Task::Asked(request)));
        Ok(())
    }

    /// Lets a seat's next call fail.
    fn fail(&mut self, who: Who, memory: bool) -> Result<(), NoMemory>
        requires { InOrder self.old }
        ensures order { InOrder self.new }
        ensures plays { OnOk result (Plays (scene_of self.old) (turns.Fail who memory) (scene_of self.new)) }
        ensures refused { OnErr result (scene_of self.new ≡ scene_of self.old) }
        ensures outsider { self.new.outsider ≡ self.old.outsider }
        ensures grows { PassesBy self.old.outsider self.old.world self.new.world }
    {
        if !self.goes_on(who.process) {
            return Ok(());
        }
        fail_next(&mut self.failing, who, memory)
    }

    /// Stops a process.
    fn stop(&mut self, process: u32) -> Result<(), NoMemory>
        requires order { InOrder self.old }
        requires elsewhere { concerns self.old.outsider (turns.Stop process) ≡ false }
        ensures order { InOrder self.new }
        ensures plays { OnOk result (Plays (scene_of self.old) (turns.Stop process) (scene_of self.new)) }
        ensures refused { OnErr result (scene_of self.new ≡ scene_of self.old) }
        ensures outsider { self.new.outsider ≡ self.old.outsider }
        ensures grows { PassesBy self.old.outsider self.old.world self.new.world }
    {
        if !self.goes_on(process) {
            return Ok(());
        }
        self.world.stop(process)?;
        forget_all(&mut self.seats, process);
        Ok(())
    }

    /// Whether no file has either name of a read-only database.
    fn is_absent(&self, root: u32, name: &Text) -> Result<bool, NoMemory>
        ensures { IfOk result (λ absent. IsTrue absent ↔ (((disk_of self.now.world.past).names (Ro root name.now) ≡ None) × ((disk_of self.now.world.past).names (RoIdx root name.now) ≡ None))) }
    {
        let main = Name::Ro {
            root,
            name: name.copy()?,
        };
        let index = Name::RoIdx {
            root,
            name: name.copy()?,
        };
        Ok(self.world.tables().lacks(&main) && self.world.tables().lacks(&index))
    }

    /// Brings a read-only database.
    fn install(
        &mut self,
        root: u32,
        name: &Text,
        main: &Bytes,
        index: &Bytes,
    ) -> Result<(), NoMemory>
        requires { InOrder self.old }
        ensures order { InOrder self.new }
        ensures plays { OnOk result (Plays (scene_of self.old) (turns.Install root name.now main.now index.now) (scene_of self.new)) }
        ensures refused { OnErr result (scene_of self.new ≡ scene_of self.old) }
        ensures outsider { self.new.outsider ≡ self.old.outsider }
        ensures grows { PassesBy self.old.outsider self.old.world self.new.world }
    {
        let absent = self.is_absent(root, name)?;
        if !absent {
            return Ok(());
        }
        let name = name.copy()?;
        let main = main.copy()?;
        let index = index.copy()?;
        self.world.install(root, name, main, index)
    }

    /// Sets the list of read-only databases.
    fn set_list(&mut self, text: &Option<Bytes>) -> Result<(), NoMemory>
        requires { InOrder self.old }
        ensures order { InOrder self.new }
        ensures plays { OnOk result (Plays (scene_of self.old) (turns.SetList text.now) (scene_of self.new)) }
        ensures refused { OnErr result (scene_of self.new ≡ scene_of self.old) }
        ensures outsider { self.new.outsider ≡ self.old.outsider }
        ensures grows { PassesBy self.old.outsider self.old.world self.new.world }
    {
        let text = copy_text(text)?;
        self.world.set_list(text)
    }

    /// Sets the clock.
    fn set_clock(&mut self, now: u64) -> Result<(), NoMemory>
        requires { InOrder self.old }
        ensures order { InOrder self.new }
        ensures plays { OnOk result (Plays (scene_of self.old) (turns.Clock now) (scene_of self.new)) }
        ensures refused { OnErr result (scene_of self.new ≡ scene_of self.old) }
        ensures outsider { self.new.outsider ≡ self.old.outsider }
        ensures grows { PassesBy self.old.outsider self.old.world self.new.world }
    {
        self.world.set_clock(now);
        Ok(())
    }
}
