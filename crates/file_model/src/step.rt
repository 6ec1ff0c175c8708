ghost use Rattle.std.specs.Prelude.{◌≡◌, ◌↔◌, ◌<◌, ℕ, false, length, IsTrue};
ghost use Rattle.cache_types.specs.Answers.{IsSmall};
ghost use Rattle.cache_types.specs.declared.seat.Who.{Who};
ghost use Rattle.file_log.specs.declared.call.Call.{Call};
ghost use Rattle.file_log.specs.declared.call.Call.TheVariants.{WriteAt, Tell};
ghost use Rattle.file_log.specs.Exchange.{MayFail, NoteMayLack};
ghost use Rattle.file_log.specs.Seat.{IsFilled, SlotFits, MayCall, course_of};
ghost use Rattle.file_log.specs.State.{state_of, disk_of};
ghost use Rattle.file_model.specs.Calls.{filled_of, MakesOne};
ghost use Rattle.file_model.specs.Seeing.{seen_of};

use crate::world::World;
use cache_types::{Answer, Bytes, Who};
use file_log::{Call, Note, Reply};

/// What becomes of a call.
#[derive(Clone, Copy, Debug, PartialEq, Eq)]
pub enum Fate {
    /// It is made.
    Go,
    /// It fails.
    Fail,
    /// It is refused memory.
    NoMemory,
}

/// How far a call is.
#[derive(Debug, Drop)]
pub enum Progress {
    /// Bytes of a write are left.
    More,
    /// It is answered.
    Reply(Reply),
}

impl World {
    ghost use Rattle.file_model.specs.Steps.{Stepped, StepTellsClock, IsFated, IsPlace, HasFailed, is_inside};

    /// Fails a call. Outside an operation that is refused where there is no memory for its item.
    fn step_fail(&mut self, who: Who) -> Progress
        requires alive { (state_of self.old.past).halted who.process ≡ false }
        requires calm { (course_of who self.old.past.log).hurt ≡ false }
        ensures stepped { (call : Call) (done : ℕ) → MayFail call → Stepped who call done result self.old self.new }
        ensures failed { HasFailed (is_inside who self.old) result }
    {
        match self.fail(who, false) {
            Ok(()) => Progress::Reply(Reply::Failed),
            Err(_) => Progress::Reply(Reply::NoMemory),
        }
    }

    /// Refuses memory to a call. Takes none: within an operation the room for its item is there.
    fn step_refused(&mut self, who: Who) -> Progress
        requires alive { (state_of self.old.past).halted who.process ≡ false }
        requires calm { (course_of who self.old.past.log).hurt ≡ false }
        ensures stepped { (call : Call) (done : ℕ) → MayFail call → Stepped who call done result self.old self.new }
        ensures refused { result ≡ Progress.Reply Reply.NoMemory }
    {
        if self.is_inside(who) {
            let _told = self.fail(who, true);
        }
        Progress::Reply(Reply::NoMemory)
    }

    /// Makes the whole of a call that makes one item.
    fn step_whole(&mut self, who: Who, call: &Call) -> Progress
        requires slots { SlotFits (filled_of (disk_of self.old.past) who) call.now }
        requires one { MakesOne call.now }
        requires may_fail { MayFail call.now }
        requires alive { (state_of self.old.past).halted who.process ≡ false }
        requires calm { (course_of who self.old.past.log).hurt ≡ false }
        ensures stepped { (done : ℕ) → Stepped who call.now done result self.old self.new }
        ensures clock { StepTellsClock call.now self.old.clock result }
        ensures unfailed { result ≡ Progress.Reply Reply.Failed → ⊥ }
    {
        let Ok(copy) = call.copy(self.alloc()) else {
            return self.step_refused(who);
        };
        match self.did(who, copy) {
            Ok(reply) => Progress::Reply(reply),
            Err(_) => self.step_refused(who),
        }
    }

    /// Writes the byte of a write that has this number.
    fn step_byte(&mut self, who: Who, slot: u8, at: u64, bytes: &Bytes, done: u64) -> Progress
        requires slot { IsFilled (filled_of (disk_of self.old.past) who) slot }
        requires place { done < length bytes.now }
        requires alive { (state_of self.old.past).halted who.process ≡ false }
        requires calm { (course_of who self.old.past.log).hurt ≡ false }
        ensures stepped { Stepped who (WriteAt slot at bytes.now) done result self.old self.new }
        ensures unfailed { result ≡ Progress.Reply Reply.Failed → ⊥ }
    {
        let Some(place) = at.checked_add(done) else {
            return self.step_refused(who);
        };
        match self.write_byte(who, slot, place, bytes.as_slice()[done as usize]) {
            Ok(()) => {}
            Err(_) => return self.step_refused(who),
        }
        if done + 1 < bytes.len() {
            Progress::More
        } else {
            Progress::Reply(Reply::Done)
        }
    }

    /// Whether a note can be refused memory.
    fn may_lack(&self, who: Who, note: &Note) -> bool
        ensures { IsTrue result ↔ NoteMayLack (course_of who self.now.past.log).inside note.now }
    {
        match note {
            Note::End(answer) => !self.is_inside(who) || !is_small(answer),
            _ => true,
        }
    }

    /// Tells a note.
    fn step_tell(&mut self, who: Who, note: &Note, fate: Fate) -> Progress
        requires alive { (state_of self.old.past).halted who.process ≡ false }
        ensures stepped { (done : ℕ) → Stepped who (Tell note.now) done result self.old self.new }
        ensures fate { IsFated fate (is_inside who self.old) (Tell note.now) result }
    {
        if fate == Fate::NoMemory && self.may_lack(who, note) {
            return Progress::Reply(Reply::NoMemory);
        }
        let Ok(copy) = note.copy(self.alloc()) else {
            return Progress::Reply(Reply::NoMemory);
        };
        match self.tell(who, copy) {
            Ok(()) => Progress::Reply(Reply::Done),
            Err(_) => Progress::Reply(Reply::NoMemory),
        }
    }

    /// Makes one item of a call, of a write the byte that has this number, with this fate.
    ///
    /// The reply is `Failed` exactly where the fate is `Fail`, but that a Close takes every fate as `Go`,
    /// a Tell takes `Fail` as `Go`, and outside an operation the item of a failure may be refused memory.
    /// A note is copied; [`tell`](World::tell) takes it as it is.
    pub fn step(&mut self, who: Who, call: &Call, done: u64, fate: Fate) -> Progress
        requires may { MayCall (seen_of who self.old.past) call.now }
        requires place { IsPlace call.now done }
        requires alive { (state_of self.old.past).halted who.process ≡ false }
        ensures stepped { Stepped who call.now done result self.old self.new }
        ensures clock { StepTellsClock call.now self.old.clock result }
        ensures fate { IsFated fate (is_inside who self.old) call.now result }
    {
        match call {
            Call::Close { slot } => {
                self.close(who, *slot);
                Progress::Reply(Reply::Done)
            }
            Call::Tell(note) => self.step_tell(who, note, fate),
            _ => match fate {
                Fate::Go => self.step_made(who, call, done),
                Fate::Fail => self.step_fail(who),
                Fate::NoMemory => self.step_refused(who),
            },
        }
    }

    /// Makes one item of a call that can fail.
    fn step_made(&mut self, who: Who, call: &Call, done: u64) -> Progress
        requires slots { SlotFits (filled_of (disk_of self.old.past) who) call.now }
        requires may_fail { MayFail call.now }
        requires place { IsPlace call.now done }
        requires alive { (state_of self.old.past).halted who.process ≡ false }
        requires calm { (course_of who self.old.past.log).hurt ≡ false }
        ensures stepped { Stepped who call.now done result self.old self.new }
        ensures clock { StepTellsClock call.now self.old.clock result }
        ensures unfailed { result ≡ Progress.Reply Reply.Failed → ⊥ }
    {
        match call {
            Call::WriteAt { slot, at, bytes } => {
                if bytes.is_empty() {
                    return self.step_whole(who, call);
                }
                self.step_byte(who, *slot, *at, bytes, done)
            }
            _ => self.step_whole(who, call),
        }
    }
}

/// Whether an answer carries no list.
fn is_small(answer: &Answer) -> bool
    ensures { IsTrue result ↔ IsSmall answer.now }
{
    match answer {
        Answer::Hit(_) => false,
        Answer::Keys(_) => false,
        Answer::Rows(_) => false,
        _ => true,
    }
}
