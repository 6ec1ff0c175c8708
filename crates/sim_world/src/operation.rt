ghost use Rattle.std.specs.Prelude.{◌≡◌, ◌+◌, ◌⊎◌, ◌∷◌, [], false, true, IfOk, OnOk, OnErr};
ghost use Rattle.file_log.specs.declared.item.LogItem.TheVariants.{Begin, End};
ghost use Rattle.file_log.specs.Legal.{IsLegal};
ghost use Rattle.file_log.specs.Seat.{MayCall};
ghost use Rattle.file_log.specs.State.{state_of};
ghost use Rattle.file_model.specs.Held.{told};
ghost use Rattle.file_model.specs.Seeing.{seen_of};
ghost use Rattle.file_model.specs.Steps.{IsEarlier, IsPlace, is_inside};
ghost use Rattle.files_api.specs.Drive.{IsEndOf};
ghost use Rattle.op_machine.specs.Requests.{IsBuilt};
ghost use Rattle.sim_world.specs.Steps.{wanting as the_wanting, IsFirst, IsFed, Asks, Ends, Goes, MayGo, Begins, Waits, fate_of as the_fate, brought_reply};

use crate::seats::Task;
use cache_types::{Answer, NoMemory, Request, Who};
use file_log::{Call, Note, Reply};
use file_model::{Fate, Progress, World};
use files_api::{Machine, Step};
use op_machine::Op;

/// A seat's open operation: its machine, what that wants next, and how many bytes of a write are written.
#[derive(Debug)]
pub struct Operation {
    pub machine: Op,
    pub wants: Step,
    pub done: u64,
}

impl Drop for Operation {
    fn drop(self) {
        let Operation {
            machine: _machine,
            wants: _wants,
            done: _,
        } = self;
    }
}

/// What a step brought.
#[derive(Clone, Copy, Debug, PartialEq, Eq)]
pub enum Brought {
    /// An item of the seat.
    Item,
    /// The failure that waited for its next call.
    Failure,
    /// Nothing that the schedule asks for: there was no memory.
    Lack,
}

/// A seat after a step: what it is at, and what the step brought.
#[derive(Debug, Drop)]
pub struct Moved {
    pub task: Option<Task>,
    pub brought: Brought,
}

/// An operation whose machine comes to its next want.
fn wanting(machine: Op) -> Operation
    ensures { result ≡ the_wanting machine }
{
    let mut machine = machine;
    let wants = machine.next();
    Operation {
        machine,
        wants,
        done: 0,
    }
}

/// An operation whose machine gets a reply.
fn fed(machine: Op, reply: Reply) -> Operation
    ensures { IsFed machine reply result }
{
    let mut machine = machine;
    machine.feed(reply);
    wanting(machine)
}

/// Makes the machine of a request and tells the Begin. A refusal changes nothing.
fn begin(world: &mut World, who: Who, request: &Request) -> Result<Operation, NoMemory>
    requires built { IsBuilt request.now }
    requires goes_on { (state_of world.old.past).halted who.process ≡ false }
    ensures first { IfOk result (λ operation. IsFirst request.now operation) }
    ensures told { OnOk result (world.new ≡ told world.old (Begin who request.now ∷ [])) }
    ensures legal { OnOk result (IsLegal (state_of world.old.past) (Begin who request.now)) }
    ensures err { OnErr result (world.new ≡ world.old) }
{
    let alloc = world.alloc();
    let begun = request.copy(alloc)?;
    let operation = wanting(Op::new(alloc, request)?);
    world.tell(who, Note::Begin(begun))?;
    Ok(operation)
}

/// Begins an operation, where there is memory for it.
pub fn step_asked(world: &mut World, who: Who, request: Request) -> Moved
    requires built { IsBuilt request }
    requires goes_on { (state_of world.old.past).halted who.process ≡ false }
    ensures { Begins who request world.old world.new result ⊎ Waits request world.old world.new result }
{
    match begin(world, who, &request) {
        Ok(operation) => Moved {
            task: Some(Task::Begun(operation)),
            brought: Brought::Item,
        },
        Err(_) => Moved {
            task: Some(Task::Asked(request)),
            brought: Brought::Lack,
        },
    }
}

/// Ends an operation: with its answer, or with want of memory in place of one that carries a list.
fn end(world: &mut World, who: Who, answer: Answer) -> Moved
    requires goes_on { (state_of world.old.past).halted who.process ≡ false }
    requires inside { is_inside who world.old ≡ true }
    ensures { Ends who answer world.old world.new result }
{
    match world.tell(who, Note::End(answer)) {
        Ok(()) => {}
        Err(_) => {
            let _told = world.tell(who, Note::End(Answer::NoMemory));
        }
    }
    Moved {
        task: None,
        brought: Brought::Item,
    }
}

/// What becomes of a call for which a failure waits, or none does. A Close and a Tell pass a failure by.
fn fate_of(call: &Call, failing: Option<bool>) -> Fate
    ensures { result ≡ the_fate call.now failing }
{
    match call {
        Call::Close { .. } => Fate::Go,
        Call::Tell(_) => Fate::Go,
        _ => match failing {
            None => Fate::Go,
            Some(true) => Fate::NoMemory,
            Some(false) => Fate::Fail,
        },
    }
}

/// What a reply brought to a call of this fate.
fn brought_by(fate: Fate, reply: &Reply) -> Brought
    ensures { result ≡ brought_reply fate reply.now }
{
    match fate {
        Fate::Go => match reply {
            Reply::NoMemory => Brought::Lack,
            _ => Brought::Item,
        },
        _ => Brought::Failure,
    }
}

/// How many bytes of a write are written after one more, where that isn't the last.
fn after_byte(call: &Call, done: u64) -> u64
    requires { IsEarlier call.now done }
    ensures { result ≡ done + 1 }
{
    let Call::WriteAt { bytes, .. } = call else {
        return done;
    };
    if done < bytes.len() { done + 1 } else { done }
}

/// Makes one item of the call that the machine wants.
fn ask(
    world: &mut World,
    who: Who,
    machine: Op,
    call: Call,
    done: u64,
    failing: Option<bool>,
) -> Moved
    requires may { MayCall (seen_of who world.old.past) call }
    requires place { IsPlace call done }
    requires goes_on { (state_of world.old.past).halted who.process ≡ false }
    ensures { Asks who machine call done failing world.old world.new result }
{
    let fate = fate_of(&call, failing);
    match world.step(who, &call, done, fate) {
        Progress::More => Moved {
            task: Some(Task::Begun(Operation {
                machine,
                done: after_byte(&call, done),
                wants: Step::Ask(call),
            })),
            brought: Brought::Item,
        },
        Progress::Reply(reply) => {
            let brought = brought_by(fate, &reply);
            Moved {
                task: Some(Task::Begun(fed(machine, reply))),
                brought,
            }
        }
    }
}

impl Operation {
    /// Makes its next item, for whose next call a failure may wait.
    pub fn step(self, world: &mut World, who: Who, failing: Option<bool>) -> Moved
        requires may { MayGo who self.wants self.done world.old }
        requires goes_on { (state_of world.old.past).halted who.process ≡ false }
        ensures { Goes who self.wants self.machine self.done failing world.old world.new result }
    {
        let Operation {
            machine,
            wants,
            done,
        } = self;
        match wants {
            Step::Done(answer) => end(world, who, answer),
            Step::Ask(call) => ask(world, who, machine, call, done, failing),
        }
    }
}
