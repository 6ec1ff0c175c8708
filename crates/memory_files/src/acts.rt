ghost use Rattle.std.specs.Prelude.{◌≡◌, false, true, nat_eq, length};
ghost use Rattle.file_log.specs.declared.call.Call.TheVariants as calls;
ghost use Rattle.file_log.specs.Exchange.{MayFail};
ghost use Rattle.file_log.specs.Seat.{MayCall};
ghost use Rattle.file_model.specs.Calls.{MakesOne, AnswersClock};
ghost use Rattle.file_model.specs.Held.{told};
ghost use Rattle.memory_files.specs.Failures.{Fails, IsFailure, failure as the_failure, bytes_before, items_of_part};
ghost use Rattle.memory_files.specs.Plans.{is_counted, is_tell};
ghost use Rattle.memory_files.specs.Seats.{Tells, GoesOn, seen_in};

use crate::plan::Fault;
use cache_types::{Bytes, Who};
use file_log::{Call, Note, Reply};
use file_model::World;

/// Makes a call of a seat. None is answered Failed.
pub fn answer(world: &mut World, me: Who, call: Call) -> Reply
    requires may { MayCall (seen_in me world.old.past) call }
    requires goes_on { GoesOn me world.old.past }
    ensures tells { Tells me call result world.old world.new }
    ensures clock { AnswersClock call world.old.clock result }
    ensures never_failed { result ≡ Reply.Failed → ⊥ }
{
    match call {
        Call::Tell(note) => tell(world, me, note),
        Call::Close { slot } => close(world, me, slot),
        Call::WriteAt { slot, at, bytes } => write(world, me, slot, at, bytes),
        call => make(world, me, call),
    }
}

/// Makes a call of a seat that is to fail. A Tell is refused memory, and a write writes a part before.
pub fn refuse(world: &mut World, me: Who, call: Call, fault: Fault) -> Reply
    requires may { MayCall (seen_in me world.old.past) call }
    requires goes_on { GoesOn me world.old.past }
    requires counted { is_counted call ≡ true }
    requires tell { is_tell call ≡ true → fault.memory ≡ true }
    ensures tells { Tells me call result world.old world.new }
    ensures refused { IsFailure fault.memory result }
{
    match call {
        Call::Tell(_) => Reply::NoMemory,
        Call::WriteAt { slot, at, bytes } => write_part(world, me, slot, at, bytes, fault),
        _ => fail(world, me, fault.memory),
    }
}

fn write_part(world: &mut World, me: Who, slot: u8, at: u64, bytes: Bytes, fault: Fault) -> Reply
    requires may { MayCall (seen_in me world.old.past) (calls.WriteAt slot at bytes) }
    requires goes_on { GoesOn me world.old.past }
    ensures tells { Tells me (calls.WriteAt slot at bytes) result world.old world.new }
    ensures refused { IsFailure fault.memory result }
    ensures part { result ≡ Reply.Failed → world.new ≡ told world.old (items_of_part me slot at (bytes_before fault.after bytes)) }
{
    let mut bytes = bytes;
    bytes.cut(fault.after.min(bytes.len().saturating_sub(1)));
    match world.write_run(me, slot, at, bytes) {
        Ok(()) => fail(world, me, fault.memory),
        Err(_) => fail(world, me, true),
    }
}

/// Tells a note.
fn tell(world: &mut World, me: Who, note: Note) -> Reply
    requires { GoesOn me world.old.past }
    ensures tells { Tells me (calls.Tell note) result world.old world.new }
    ensures never_failed { result ≡ Reply.Failed → ⊥ }
{
    match world.tell(me, note) {
        Ok(()) => Reply::Done,
        Err(_) => Reply::NoMemory,
    }
}

fn close(world: &mut World, me: Who, slot: u8) -> Reply
    requires may { MayCall (seen_in me world.old.past) (calls.Close slot) }
    requires goes_on { GoesOn me world.old.past }
    ensures tells { Tells me (calls.Close slot) result world.old world.new }
    ensures never_failed { result ≡ Reply.Failed → ⊥ }
{
    world.close(me, slot);
    Reply::Done
}

fn write(world: &mut World, me: Who, slot: u8, at: u64, bytes: Bytes) -> Reply
    requires may { MayCall (seen_in me world.old.past) (calls.WriteAt slot at bytes) }
    requires goes_on { GoesOn me world.old.past }
    ensures tells { Tells me (calls.WriteAt slot at bytes) result world.old world.new }
    ensures never_failed { result ≡ Reply.Failed → ⊥ }
{
    if bytes.is_empty() {
        return make(world, me, Call::WriteAt { slot, at, bytes });
    }
    match world.write_run(me, slot, at, bytes) {
        Ok(()) => Reply::Done,
        Err(_) => fail(world, me, true),
    }
}

/// Makes a call that makes one item.
fn make(world: &mut World, me: Who, call: Call) -> Reply
    requires may { MayCall (seen_in me world.old.past) call }
    requires one { MakesOne call }
    requires fails { MayFail call }
    requires goes_on { GoesOn me world.old.past }
    ensures tells { Tells me call result world.old world.new }
    ensures clock { AnswersClock call world.old.clock result }
    ensures never_failed { result ≡ Reply.Failed → ⊥ }
{
    match world.did(me, call) {
        Ok(reply) => reply,
        Err(_) => fail(world, me, true),
    }
}

/// A call fails now, or with `memory` is refused memory. Outside an operation want of memory is not told,
/// and takes the place of a failure that there is no memory to tell.
pub fn fail(world: &mut World, me: Who, memory: bool) -> Reply
    requires calm { (seen_in me world.old.past).hurt ≡ false }
    requires goes_on { GoesOn me world.old.past }
    ensures fails { Fails me memory result world.old world.new }
{
    if memory && !world.seen(me).inside {
        return Reply::NoMemory;
    }
    match world.fail(me, memory) {
        Ok(()) => failure(memory),
        Err(_) => Reply::NoMemory,
    }
}

fn failure(memory: bool) -> Reply
    ensures { result ≡ the_failure memory }
{
    if memory {
        Reply::NoMemory
    } else {
        Reply::Failed
    }
}
