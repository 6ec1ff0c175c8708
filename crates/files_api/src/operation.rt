ghost use Rattle.std.specs.Prelude.{◌≡◌, ◌≤◌, ◌⊎◌, ℕ, Ok, true, false, [], ◌∷◌, IsTrue};
ghost use Rattle.cache_types.specs.Answers.{IsSmall};
ghost use Rattle.file_log.specs.Seat.{IsIdle, noted};
ghost use Rattle.file_log.specs.Told.{Grows, OwnsToEnd};
ghost use Rattle.file_log.specs.declared.item.LogItem.TheVariants.{End};
ghost use Rattle.files_api.specs.Drive.{Ran, Refused, Unmade, Operated, IsEndOf, IsFresh};
ghost use Rattle.files_api.specs.Notes.{items_told, seen_told, IsSmallEnd, IsSeenTold};

use crate::files::Files;
use crate::machine::{Machine, Step};
use cache_types::{Answer, NoMemory, Request};
use file_log::{Call, Note, Reply};
use std::alloc::Global;

/// Makes the calls that a machine wants, within an open operation, and gives its answer.
pub fn drive<M: Machine, F: Files>(machine: &mut M, files: &mut F) -> Answer
    requires right { M.right machine.old }
    requires slots { (at : ℕ) → (F.seen files.old).filled at ≡ M.slots machine.old at }
    requires inside { (F.seen files.old).inside ≡ true }
    requires calm { (F.seen files.old).hurt ≡ true → M.hurt machine.old ≡ true }
    ensures run { Ran M.asks M.asked M.fed (M.left machine.old) (F.me files.old) machine.old machine.new (F.history files.old) (F.history files.new) (F.faults files.old) (F.faults files.new) result }
    ensures me { F.me files.new ≡ F.me files.old }
    ensures inside { (F.seen files.new).inside ≡ true }
    ensures closed { (at : ℕ) → (F.seen files.new).filled at ≡ false }
{
    'calls: loop {
        match machine.next() {
            Step::Done(answer) => return answer,
            Step::Ask(call) => {
                let reply = files.call(call);
                machine.feed(reply);
            }
        }
    }
}

/// Tells a note, and whether it was told.
fn tell<F: Files>(files: &mut F, note: Note) -> bool
    ensures me { F.me files.new ≡ F.me files.old }
    ensures seen { IsSeenTold note result (F.seen files.old) (F.seen files.new) }
    ensures told { Grows (F.history files.old) (F.history files.new) (OwnsToEnd (F.me files.old) (items_told (F.me files.old) note result)) }
    ensures end { (F.seen files.old).inside ≡ true → IsSmallEnd note → result ≡ true }
    ensures faults { F.faults files.old ≤ F.faults files.new }
{
    match files.call(Call::Tell(note)) {
        Reply::Done => true,
        _ => false,
    }
}

/// Tells the End of an operation that ran out of memory, which takes none.
fn give_up<F: Files>(files: &mut F) -> Answer
    requires { (F.seen files.old).inside ≡ true }
    ensures result { result ≡ Answer.NoMemory }
    ensures me { F.me files.new ≡ F.me files.old }
    ensures outside { (F.seen files.new).inside ≡ false }
    ensures filled { (at : ℕ) → (F.seen files.new).filled at ≡ (F.seen files.old).filled at }
    ensures faults { F.faults files.old ≤ F.faults files.new }
    ensures told { Grows (F.history files.old) (F.history files.new) (OwnsToEnd (F.me files.old) (End (F.me files.old) Answer.NoMemory ∷ [])) }
{
    let _told = tell(files, Note::End(Answer::NoMemory));
    Answer::NoMemory
}

/// Tells the End of an operation: its answer, or want of memory in place of one that carries a list.
fn tell_end<F: Files>(alloc: Global, files: &mut F, answer: Answer) -> Answer
    requires { (F.seen files.old).inside ≡ true }
    ensures result { IsEndOf answer result }
    ensures me { F.me files.new ≡ F.me files.old }
    ensures outside { (F.seen files.new).inside ≡ false }
    ensures filled { (at : ℕ) → (F.seen files.new).filled at ≡ (F.seen files.old).filled at }
    ensures faults { F.faults files.old ≤ F.faults files.new }
    ensures told { Grows (F.history files.old) (F.history files.new) (OwnsToEnd (F.me files.old) (End (F.me files.old) result ∷ [])) }
{
    if files.end(alloc, &answer) {
        return answer;
    }
    give_up(files)
}

/// A whole operation: tells its Begin, makes its machine of the request, drives it, and tells its End.
///
/// Afterwards every slot of the seat is empty, no operation of it is open, and the files may be used again.
/// Where there is no memory for the Begin nothing is told, and the answer is `NoMemory`. The machine is made
/// after the Begin, so that it may take the request's memory, and that want of memory for it ends in an End.
pub fn operate<M: Machine + Drop, F: Files, B: FnOnce(Request) -> Result<M, NoMemory>>(
    alloc: Global,
    files: &mut F,
    request: Request,
    make: B,
) -> Answer
    requires idle { IsIdle (F.seen files.old) }
    requires callable { B.pre make request }
    requires right { (m : M) → B.post make request (Ok m) → M.right m }
    requires fresh { (m : M) → B.post make request (Ok m) → IsFresh (M.slots m) (M.hurt m) }
    ensures ended { Refused (F.me files.old) (F.history files.old) (F.history files.new) result
        ⊎ (Unmade (F.me files.old) request (F.history files.old) (F.history files.new) result
        ⊎ Operated M.asks M.asked M.fed M.left (λ m. B.post make request (Ok m)) (F.me files.old) request (F.history files.old) (F.history files.new) (F.faults files.old) (F.faults files.new) result) }
    ensures idle { IsIdle (F.seen files.new) }
    ensures me { F.me files.new ≡ F.me files.old }
    ensures faults { F.faults files.old ≤ F.faults files.new }
{
    if !files.begin(alloc, &request) {
        return Answer::NoMemory;
    }
    let Ok(made) = make(request) else {
        return give_up(files);
    };
    let mut machine = made;
    let answer = drive(&mut machine, files);
    tell_end(alloc, files, answer)
}
