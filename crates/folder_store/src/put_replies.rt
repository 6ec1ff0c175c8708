ghost use Rattle.std.specs.Prelude.{◌≡◌};
ghost use Rattle.cache_types.specs.Driver.{Fronts};
ghost use Rattle.folder_store.specs.Phases.{fault};
ghost use Rattle.folder_store.specs.PutPhases.{NextPut, Judged, Read, Fronted, FrontRead, besides_in as the_besides_in, opened as the_opened, measured as the_measured, lock_opened as the_lock_opened, held as the_held, tried as the_tried, after_length as the_after_length, closing as the_closing, unless_done as the_unless_done};

use crate::put_phase::{Besides, LOCK_TRIES, Look, PutPhase};
use cache_types::{Answer, Bytes, Driver, MAX_ITEM};
use file_log::Reply;
use item_frame::check_item;

/// The answer after a call that failed or was refused memory.
fn fault_of(reply: &Reply) -> Answer
    ensures { result ≡ fault reply.now }
{
    match reply {
        Reply::NoMemory => Answer::NoMemory,
        _ => Answer::FilesFault,
    }
}

/// What is open besides the entry's file at a look: the second is made under the lock.
fn besides_in(look: Look) -> Besides
    ensures { result ≡ the_besides_in look }
{
    match look {
        Look::First => Besides::Nothing,
        Look::Second => Besides::Lock,
    }
}

/// The end with an answer, once the files that are open are closed, the lock file last.
fn closing(answer: Answer, entry: bool, besides: Besides) -> PutPhase
    ensures { result ≡ the_closing answer entry besides }
{
    if entry {
        return PutPhase::ClosingEntry { answer, besides };
    }
    match besides {
        Besides::Nothing => PutPhase::Ended(answer),
        Besides::Lock => PutPhase::ClosingLock(answer),
        Besides::LockAndTemp => PutPhase::ClosingTemp(answer),
    }
}

/// What follows on a call that is done, and the end after another.
fn unless_done(reply: &Reply, entry: bool, besides: Besides, next: PutPhase) -> PutPhase
    ensures { result ≡ the_unless_done reply.now entry besides next }
{
    match reply {
        Reply::Done => next,
        other => closing(fault_of(other), entry, besides),
    }
}

/// What follows on the opening of the entry's file.
fn opened(look: Look, reply: Reply) -> PutPhase
    ensures { result ≡ the_opened look reply }
{
    match (look, reply) {
        (look, Reply::Done) => PutPhase::Measuring(look),
        (Look::First, Reply::Missing) => PutPhase::OpeningLock,
        (Look::Second, Reply::Missing) => PutPhase::Making { entry: false },
        (look, other) => closing(fault_of(&other), false, besides_in(look)),
    }
}

/// What follows on the length of the entry's file.
fn measured(look: Look, length: u64) -> PutPhase
    ensures { result ≡ the_measured look length }
{
    if length <= MAX_ITEM {
        return PutPhase::Reading(look, length);
    }
    match look {
        Look::First => PutPhase::Leaving,
        Look::Second => PutPhase::ReadingFront,
    }
}

/// What follows on the call for the length of the entry's file.
fn after_length(look: Look, reply: Reply) -> PutPhase
    ensures { result ≡ the_after_length look reply }
{
    match reply {
        Reply::Number(length) => measured(look, length),
        other => closing(fault_of(&other), true, besides_in(look)),
    }
}

/// What follows on the bytes at the front of an entry's file that goes.
fn fronted(bytes: Bytes) -> PutPhase
    ensures { Fronted bytes result }
{
    match Driver::of_front(bytes) {
        Some(driver) => PutPhase::Evicting(driver),
        None => PutPhase::Making { entry: true },
    }
}

/// What follows on the bytes of the entry's file.
fn judged(driver: &Driver, look: Look, bytes: Bytes) -> PutPhase
    ensures { Judged driver.now look bytes result }
{
    if check_item(driver, bytes.as_slice()).is_ok() {
        return PutPhase::ClosingEntry {
            answer: Answer::Kept,
            besides: besides_in(look),
        };
    }
    match look {
        Look::First => PutPhase::Leaving,
        Look::Second => fronted(bytes),
    }
}

/// What follows on the reading of the entry's file.
fn read(driver: &Driver, look: Look, reply: Reply) -> PutPhase
    ensures { Read driver.now look reply result }
{
    match reply {
        Reply::Got(bytes) => judged(driver, look, bytes),
        other => closing(fault_of(&other), true, besides_in(look)),
    }
}

/// What follows on the reading of the front of a file that is too long for an item.
fn front_read(reply: Reply) -> PutPhase
    ensures { FrontRead reply result }
{
    match reply {
        Reply::Got(bytes) => fronted(bytes),
        other => closing(fault_of(&other), true, Besides::Lock),
    }
}

/// What follows on the opening of the lock file.
fn lock_opened(reply: &Reply) -> PutPhase
    ensures { result ≡ the_lock_opened reply.now }
{
    let again = LOCK_TRIES - 1;
    unless_done(reply, false, Besides::Nothing, PutPhase::Locking { again })
}

/// What follows where another seat holds the lock, and it may be asked for so often again.
fn held(again: u8) -> PutPhase
    ensures { result ≡ the_held again }
{
    if again == 0 {
        PutPhase::ClosingLock(Answer::Busy)
    } else {
        PutPhase::Pausing { again: again - 1 }
    }
}

/// What follows on a try to take the lock.
fn tried(again: u8, reply: Reply) -> PutPhase
    ensures { result ≡ the_tried again reply }
{
    match reply {
        Reply::Done => PutPhase::Opening(Look::Second),
        Reply::Held => held(again),
        other => closing(fault_of(&other), false, Besides::Lock),
    }
}

/// The phase after a reply.
pub(crate) fn next_phase(driver: &Driver, phase: PutPhase, reply: Reply) -> PutPhase
    ensures { NextPut driver.now phase reply result }
{
    match phase {
        PutPhase::Opening(look) => opened(look, reply),
        PutPhase::Measuring(look) => after_length(look, reply),
        PutPhase::Reading(look, _) => read(driver, look, reply),
        PutPhase::ReadingFront => front_read(reply),
        PutPhase::Leaving => PutPhase::OpeningLock,
        PutPhase::OpeningLock => lock_opened(&reply),
        PutPhase::Locking { again } => tried(again, reply),
        PutPhase::Pausing { again } => {
            unless_done(&reply, false, Besides::Lock, PutPhase::Locking { again })
        }
        PutPhase::Evicted => {
            unless_done(
                &reply,
                true,
                Besides::Lock,
                PutPhase::Making { entry: true },
            )
        }
        PutPhase::Making { entry } => {
            unless_done(&reply, entry, Besides::Lock, PutPhase::Cutting { entry })
        }
        PutPhase::Cutting { entry } => {
            let writing = PutPhase::Writing { entry };
            unless_done(&reply, entry, Besides::LockAndTemp, writing)
        }
        PutPhase::Writing { entry } => {
            let renaming = PutPhase::Renaming { entry };
            unless_done(&reply, entry, Besides::LockAndTemp, renaming)
        }
        PutPhase::Renaming { entry } => {
            let stored = closing(Answer::Stored, entry, Besides::LockAndTemp);
            unless_done(&reply, entry, Besides::LockAndTemp, stored)
        }
        PutPhase::ClosingEntry { answer, besides } => closing(answer, false, besides),
        PutPhase::ClosingTemp(answer) => PutPhase::ClosingLock(answer),
        PutPhase::ClosingLock(answer) => PutPhase::Ended(answer),
        PutPhase::Evicting(_) | PutPhase::Ended(_) | PutPhase::Spent => PutPhase::Spent,
    }
}
