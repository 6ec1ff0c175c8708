ghost use Rattle.std.specs.Prelude.{◌≡◌, ◌≤◌, ◌+◌, true, false, OnOk, OnErr, IsOk, if◌then◌else◌};
ghost use Rattle.cache_types.specs.Seats.{same_seat};
ghost use Rattle.cache_types.specs.declared.seat.Who.{Who};
ghost use Rattle.file_model.specs.Operations.{operation_of as the_operation, course_in, is_whole as whole};
ghost use Rattle.file_model.specs.Room.{ends, AreSame};

use cache_types::{NoMemory, Who};
use std::collections::HashMap;
use world_tables::Book;

/// An open operation: whether one of its calls failed or was refused memory.
#[derive(Clone, Copy, Debug, PartialEq, Eq)]
pub struct OpenOperation {
    pub hurt: bool,
}

/// The open operations by their seats.
pub type Operations = HashMap<Who, OpenOperation>;

/// A seat's open operation.
pub fn operation_of(operations: &Operations, who: Who) -> Option<OpenOperation>
    ensures { result ≡ the_operation operations.now who }
{
    operations.get(&who).copied()
}

/// Hurts a seat's open operation, which isn't hurt yet. Takes no memory.
fn hurt(operations: &mut Operations, who: Who)
    requires { whole (the_operation operations.old who) ≡ true }
    ensures courses { (w : Who) → course_in operations.new w ≡ (if same_seat w who then record { inside = true; hurt = true } else course_in operations.old w) }
    ensures ends { ends operations.new + 1 ≡ ends operations.old }
{
    if let Some(operation) = operations.get_mut(&who) {
        operation.hurt = true;
    }
}

/// Whether a seat has an open operation that isn't hurt.
fn is_whole(operations: &Operations, who: Who) -> bool
    ensures { result ≡ whole (the_operation operations.now who) }
{
    match operation_of(operations, who) {
        None => false,
        Some(operation) => !operation.hurt,
    }
}

/// Begins an operation of a seat. Takes the memory for its Begin, its End and its first failure.
pub fn begin_in_room(book: &mut Book, operations: &mut Operations, who: Who) -> Result<(), NoMemory>
    ensures courses { OnOk result ((w : Who) → course_in operations.new w ≡ (if same_seat w who then record { inside = true; hurt = false } else course_in operations.old w)) }
    ensures room { OnOk result (ends operations.new + book.old.room + 1 ≤ ends operations.old + book.new.room) }
    ensures items { book.new.items ≡ book.old.items }
    ensures err { OnErr result (AreSame operations.old operations.new × (book.new ≡ book.old)) }
{
    operations.reserve(1)?;
    book.make_room(3)?;
    // There is a place for it, so this can't fail.
    let _begun = operations.insert(who, OpenOperation { hurt: false });
    Ok(())
}

/// Ends a seat's operation, with room for its End. Takes memory only where none is open.
pub fn end_in_room(book: &mut Book, operations: &mut Operations, who: Who) -> Result<(), NoMemory>
    requires { ends operations.old ≤ book.old.room }
    ensures courses { OnOk result ((w : Who) → course_in operations.new w ≡ (if same_seat w who then record { inside = false; hurt = false } else course_in operations.old w)) }
    ensures room { OnOk result (ends operations.new + book.old.room + 1 ≤ ends operations.old + book.new.room) }
    ensures items { book.new.items ≡ book.old.items }
    ensures err { OnErr result (AreSame operations.old operations.new × (book.new ≡ book.old)) }
    ensures kept { (course_in operations.old who).inside ≡ true → IsOk result }
{
    match operations.remove(&who) {
        None => book.make_room(1)?,
        Some(operation) => {
            if !operation.hurt {
                book.give_room(1);
            }
        }
    }
    Ok(())
}

/// Hurts a seat's open operation, if there is one, with room for the failure. Takes memory only where
/// none is open, or it is hurt.
pub fn fail_in_room(book: &mut Book, operations: &mut Operations, who: Who) -> Result<(), NoMemory>
    ensures courses { OnOk result ((w : Who) → course_in operations.new w ≡ (if same_seat w who then record { inside = (course_in operations.old w).inside; hurt = (course_in operations.old w).inside } else course_in operations.old w)) }
    ensures room { OnOk result (ends operations.new + book.old.room + 1 ≤ ends operations.old + book.new.room) }
    ensures items { book.new.items ≡ book.old.items }
    ensures err { OnErr result (AreSame operations.old operations.new × (book.new ≡ book.old)) }
    ensures kept { course_in operations.old who ≡ record { inside = true; hurt = false } → IsOk result }
{
    if is_whole(operations, who) {
        hurt(operations, who);
    } else {
        book.make_room(1)?;
    }
    Ok(())
}
