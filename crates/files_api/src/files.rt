ghost use Rattle.std.specs.Prelude.{◌≡◌, ◌≤◌, ℕ, true, Option};
ghost use Rattle.cache_types.specs.Answers.{IsSmall};
ghost use Rattle.cache_types.specs.declared.seat.Who.{Who};
ghost use Rattle.file_log.specs.declared.note.Note.TheVariants.{Begin, End};
ghost use Rattle.file_log.specs.Exchange.{Answers};
ghost use Rattle.file_log.specs.Log.{History};
ghost use Rattle.file_log.specs.Seat.{Seen, MayCall, IsSeen, seen_after};
ghost use Rattle.file_log.specs.Told.{Called, Grows, OwnsToEnd, IsToldBy, HasCause};
ghost use Rattle.files_api.specs.Notes.{items_told, IsSeenTold};

use cache_types::{Answer, Request};
use file_log::{Call, Note, Reply};
use std::alloc::Global;

/// Files that one seat calls.
///
/// A call is made where [`MayCall`] allows it: a slot that is used is filled, one that is opened is empty,
/// and after a failure within an operation only slots are closed and notes told, until its End. Where the
/// files tell their log, each call adds the items that it made, in their order; items of others may stand
/// before them and between them, also between two bytes of a write, and none after the last of them.
pub trait Files {
    /// What was there at first and what all seats did since, where the files tell it.
    ghost history: { Self → Option History };

    /// The seat that calls.
    ghost me: { Self → Who };

    /// Which of its slots are filled, whether an operation of it is open, and whether a call of that failed.
    ghost seen: { Self → Seen };

    /// How many calls failed so far, up to 2^64 - 1.
    ghost faults: { Self → ℕ };

    /// Makes a call.
    fn call(&mut self, c: Call) -> Reply
        requires may { MayCall (seen self.old) c }
        ensures fits { Answers (seen self.old).inside c result }
        ensures me { me self.new ≡ me self.old }
        ensures seen { IsSeen (seen self.new) (seen_after (seen self.old) c result) }
        ensures told { Called (me self.old) (seen self.old).inside c result (history self.old) (history self.new) }
        ensures cause { HasCause (faults self.old) (faults self.new) result };

    /// Tells the Begin of an operation that was asked for so, and whether there was memory for it. The request stays the
    /// caller's. Files that keep a log copy it; others need not.
    fn begin(&mut self, alloc: Global, request: &Request) -> bool
        ensures me { me self.new ≡ me self.old }
        ensures seen { IsSeenTold (Begin request.now) result (seen self.old) (seen self.new) }
        ensures told { Grows (history self.old) (history self.new) (OwnsToEnd (me self.old) (items_told (me self.old) (Begin request.now) result)) }
        ensures faults { faults self.old ≤ faults self.new }
    {
        let Ok(copy) = request.copy(alloc) else {
            return false;
        };
        match self.call(Call::Tell(Note::Begin(copy))) {
            Reply::Done => true,
            _ => false,
        }
    }

    /// Tells the End of the open operation, and whether there was memory for it: always where the answer carries no
    /// list. The answer stays the caller's. Files that keep a log copy it; others need not.
    fn end(&mut self, alloc: Global, answer: &Answer) -> bool
        requires inside { (seen self.old).inside ≡ true }
        ensures me { me self.new ≡ me self.old }
        ensures seen { IsSeenTold (End answer.now) result (seen self.old) (seen self.new) }
        ensures told { Grows (history self.old) (history self.new) (OwnsToEnd (me self.old) (items_told (me self.old) (End answer.now) result)) }
        ensures small { IsSmall answer.now → result ≡ true }
        ensures faults { faults self.old ≤ faults self.new }
    {
        let Ok(copy) = answer.copy(alloc) else {
            return false;
        };
        match self.call(Call::Tell(Note::End(copy))) {
            Reply::Done => true,
            _ => false,
        }
    }

    /// What is known of it at any time: what it has seen of itself is what a told log says.
    fn known(&self)
        ensures { IsToldBy (me self.now) (seen self.now) (history self.now) };
}
