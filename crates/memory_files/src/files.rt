ghost use Rattle.std.specs.Prelude.{◌≡◌, false};
ghost use Rattle.file_log.specs.State.{state_of};

use crate::acts::{answer, refuse};
use crate::allowed::is_allowed;
use crate::plan::{Fault, Plan};
use cache_types::{NoMemory, Who};
use file_log::{Call, Reply};
use file_model::World;
use files_api::Files;
use std::alloc::Global;

/// Files in memory, which one seat calls. All that is done to them is told.
#[derive(Debug)]
pub struct MemFiles {
    world: World,
    me: Who,
    plan: Plan,
    faults: u64,
    ghost goes_on: { (state_of world.past).halted me.process ≡ false },
}

impl Drop for MemFiles {
    fn drop(self) {
        let MemFiles {
            world: _world,
            me: _,
            plan: _plan,
            faults: _,
        } = self;
    }
}

impl MemFiles {
    ghost use Rattle.std.specs.Prelude.{◌≡◌, ◌<◌, ◌↔◌, ℕ, Some, None, [], false, IfOk, IsTrue, is_some};
    ghost use Rattle.file_log.specs.Seat.{IsIdle, MayCall, course_of};
    ghost use Rattle.file_log.specs.State.{disk_of};
    ghost use Rattle.file_log.specs.Told.{HasCause};
    ghost use Rattle.file_model.specs.Calls.{AnswersClock};
    ghost use Rattle.memory_files.specs.Failures.{IsFailure};
    ghost use Rattle.memory_files.specs.Files.{world_of, plan_of, IsCounted};
    ghost use Rattle.memory_files.specs.Plans.{fault_for, faults_after};
    ghost use Rattle.memory_files.specs.Seats.{GoesOn, Tells, seen_in};
    ghost use Rattle.memory_files.specs.declared.plan.Fault.{Fault as PlannedFault};

    /// A seat on a new world, in which nothing is and nothing was done. No call is to fail.
    pub fn new(alloc: Global, me: Who) -> Result<MemFiles, NoMemory>
        ensures world { IfOk result (λ f. world_of f ≡ record { past = record { start = []; log = [] }; clock = 0 }) }
        ensures history { IfOk result (λ f. ⟦<MemFiles as Files>⟧.history f ≡ Some (record { start = []; log = [] })) }
        ensures me { IfOk result (λ f. ⟦<MemFiles as Files>⟧.me f ≡ me) }
        ensures idle { IfOk result (λ f. IsIdle (⟦<MemFiles as Files>⟧.seen f)) }
        ensures faults { IfOk result (λ f. ⟦<MemFiles as Files>⟧.faults f ≡ 0) }
        ensures calm { IfOk result (λ f. (plan_of f).faults.items ≡ []) }
    {
        MemFiles::on(alloc, me, World::new(alloc))
    }

    /// Goes on with a world, in which no slot of the seat is filled and its process goes on. No call is to
    /// fail.
    pub fn on(alloc: Global, me: Who, world: World) -> Result<MemFiles, NoMemory>
        requires empty { (at : ℕ) → at < 8 → is_some ((disk_of world.past).slots me at) ≡ false }
        requires goes_on { GoesOn me world.past }
        ensures world { IfOk result (λ f. world_of f ≡ world) }
        ensures history { IfOk result (λ f. ⟦<MemFiles as Files>⟧.history f ≡ Some world.past) }
        ensures me { IfOk result (λ f. ⟦<MemFiles as Files>⟧.me f ≡ me) }
        ensures seen { IfOk result (λ f. ⟦<MemFiles as Files>⟧.seen f ≡ seen_in me world.past) }
        ensures idle { (course_of me world.past.log).inside ≡ false → IfOk result (λ f. IsIdle (⟦<MemFiles as Files>⟧.seen f)) }
        ensures faults { IfOk result (λ f. ⟦<MemFiles as Files>⟧.faults f ≡ 0) }
        ensures calm { IfOk result (λ f. (plan_of f).faults.items ≡ []) }
    {
        Ok(MemFiles {
            world,
            me,
            plan: Plan::of(Vec::new(alloc)),
            faults: 0,
        })
    }

    /// These calls are to fail, counted from 0 from now on. A Close and the Tell of an End have no number.
    /// A fault that is no want of memory and falls on a Tell stands for the next call that is none. Of
    /// those that stand for one call the earliest in the plan is taken. Takes no memory.
    pub fn fail_at(&mut self, plan: Vec<Fault>)
        ensures plan { plan_of self.new ≡ record { faults = plan; calls = 0 } }
        ensures world { world_of self.new ≡ world_of self.old }
        ensures me { ⟦<MemFiles as Files>⟧.me self.new ≡ ⟦<MemFiles as Files>⟧.me self.old }
        ensures faults { ⟦<MemFiles as Files>⟧.faults self.new ≡ ⟦<MemFiles as Files>⟧.faults self.old }
    {
        self.plan = Plan::of(plan);
    }

    /// Sets the world's clock. Takes no memory.
    pub fn set_clock(&mut self, now: u64)
        ensures world { world_of self.new ≡ record (world_of self.old) { clock = now } }
        ensures plan { plan_of self.new ≡ plan_of self.old }
        ensures me { ⟦<MemFiles as Files>⟧.me self.new ≡ ⟦<MemFiles as Files>⟧.me self.old }
        ensures faults { ⟦<MemFiles as Files>⟧.faults self.new ≡ ⟦<MemFiles as Files>⟧.faults self.old }
    {
        self.world.set_clock(now);
    }

    /// The world as it is.
    pub fn world(&self) -> &World
        ensures world { result.now ≡ world_of self.now }
        ensures history { ⟦<MemFiles as Files>⟧.history self.now ≡ Some result.now.past }
    {
        &self.world
    }

    /// The seat that calls.
    pub(crate) fn seat(&self) -> Who
        ensures { result ≡ ⟦<MemFiles as Files>⟧.me self.now }
    {
        self.me
    }

    /// The world, with which another seat may go on.
    pub fn into_world(self) -> World
        ensures world { result ≡ world_of self }
        ensures history { ⟦<MemFiles as Files>⟧.history self ≡ Some result.past }
    {
        let MemFiles {
            world,
            me: _,
            plan: _plan,
            faults: _,
        } = self;
        world
    }

    /// Whether the seat may make this call now.
    pub fn may_make(&self, call: &Call) -> bool
        ensures { IsTrue result ↔ MayCall (⟦<MemFiles as Files>⟧.seen self.now) call.now }
    {
        is_allowed(&self.world, self.me, call)
    }

    /// Makes a call, as [`Files::call`] does, and keeps to the plan: where a fault stands for the call it
    /// fails or is refused memory, and no other call is answered Failed.
    pub fn make(&mut self, call: Call) -> Reply
        requires may { MayCall (⟦<MemFiles as Files>⟧.seen self.old) call }
        ensures me { ⟦<MemFiles as Files>⟧.me self.new ≡ ⟦<MemFiles as Files>⟧.me self.old }
        ensures tells { Tells (⟦<MemFiles as Files>⟧.me self.old) call result (world_of self.old) (world_of self.new) }
        ensures clock { AnswersClock call (world_of self.old).clock result }
        ensures cause { HasCause (⟦<MemFiles as Files>⟧.faults self.old) (⟦<MemFiles as Files>⟧.faults self.new) result }
        ensures faults { ⟦<MemFiles as Files>⟧.faults self.new ≡ faults_after (fault_for (plan_of self.old) call) (⟦<MemFiles as Files>⟧.faults self.old) }
        ensures planned { (fault : PlannedFault) → fault_for (plan_of self.old) call ≡ Some fault → IsFailure fault.memory result }
        ensures unplanned { fault_for (plan_of self.old) call ≡ None → result ≡ Reply.Failed → ⊥ }
        ensures counted { IsCounted (plan_of self.old) call (plan_of self.new) }
    {
        match self.plan.next(&call) {
            None => answer(&mut self.world, self.me, call),
            Some(fault) => {
                if !fault.memory {
                    self.faults = self.faults.saturating_add(1);
                }
                refuse(&mut self.world, self.me, call, fault)
            }
        }
    }
}

impl Files for MemFiles {
    ghost use Rattle.std.specs.Prelude.{Some};
    ghost use Rattle.memory_files.specs.Seats.{seen_in};

    ghost history = { λ f. Some f.world.past };

    ghost me = { λ f. f.me };

    ghost seen = { λ f. seen_in f.me f.world.past };

    ghost faults = { λ f. f.faults };

    fn call(&mut self, c: Call) -> Reply {
        self.make(c)
    }

    fn known(&self) {}
}
