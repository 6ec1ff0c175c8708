ghost use Rattle.std.specs.Prelude.{◌≡◌};
ghost use Rattle.folder_store.specs.PutPhases.{IsNewPut, changes_in, item_after, given_in, after_giving};
ghost use Rattle.seat_rules.specs.Kinds.{folder_byte};

use crate::put_phase::{Look, PutPhase};
use crate::put_replies::next_phase;
use cache_types::{Answer, Bytes, Driver, Key, Layout, Name, Store};
use file_log::{Call, Note, Reply};
use files_api::{Machine, Step};
use std::alloc::Global;
use std::mem;

/// The slot of the folder's lock file.
const LOCK_SLOT: u8 = 0;

/// The slot of the entry's file.
const ENTRY_SLOT: u8 = 1;

/// The slot of the temporary file.
const TEMP_SLOT: u8 = 3;

/// The length in bytes of the longest driver keys blob: so much is read of a file that is too long for an
/// item.
const LONGEST_FRONT: u64 = 522;

/// A put into a folder store: at most 143 calls, all in one root.
///
/// It looks at the entry as a lookup does. Where that holds nothing for the driver it takes the lock of the
/// key's folder, with a pause after each try but the last of [`LOCK_TRIES`], and looks again. Under the lock
/// the item is written under a temporary name, which then becomes the entry's. The lock file is closed last.
///
/// It ends in `Kept` where the entry's file reads for the driver; in `Stored`; in `Busy` where another seat
/// held the lock at each try; in `FilesFault` where a call failed; in `NoMemory` where a call was refused
/// memory: it takes none itself.
///
/// [`LOCK_TRIES`]: crate::LOCK_TRIES
#[derive(Debug, Drop)]
pub struct FolderPut {
    root: u32,
    driver: Driver,
    key: Key,
    item: Bytes,
    alloc: Global,
    phase: PutPhase,
}

impl FolderPut {
    /// A put of an item under a key for a driver into the store of this root. Takes no memory.
    pub fn new(alloc: Global, root: u32, driver: Driver, key: Key, item: Bytes) -> FolderPut
        ensures { IsNewPut root driver key item result }
    {
        FolderPut {
            root,
            driver,
            key,
            item,
            alloc,
            phase: PutPhase::Opening(Look::First),
        }
    }
}

impl FolderPut {
    fn entry_name(&self) -> Name
        ensures { result ≡ Name.Entry self.now.root self.now.key }
    {
        Name::Entry {
            root: self.root,
            key: self.key,
        }
    }

    fn lock_name(&self) -> Name
        ensures { result ≡ Name.FolderLock self.now.root (folder_byte self.now.key) }
    {
        Name::FolderLock {
            root: self.root,
            byte: self.key.bytes[0],
        }
    }

    fn temp_name(&self) -> Name
        ensures { result ≡ Name.Temp self.now.root self.now.key }
    {
        Name::Temp {
            root: self.root,
            key: self.key,
        }
    }

    /// The note that the entry of this driver goes.
    fn eviction(&self, driver: Driver) -> Note
        ensures { result ≡ Note.Evict (record { root = self.now.root; layout = Layout.Folder }) driver self.now.key }
    {
        Note::Evict {
            store: Store {
                root: self.root,
                layout: Layout::Folder,
            },
            driver,
            key: self.key,
        }
    }

    /// The call that makes the temporary file, cuts it, writes the item there, or gives it the entry's name.
    fn change(&mut self) -> Step
        ensures step { result ≡ changes_in self.old.root self.old.key self.old.item self.old.phase }
        ensures after { self.new ≡ record self.old { item = item_after self.old.phase self.old.item } }
    {
        match &self.phase {
            PutPhase::Making { .. } => Step::Ask(Call::OpenNew {
                slot: TEMP_SLOT,
                name: self.temp_name(),
            }),
            PutPhase::Cutting { .. } => Step::Ask(Call::Cut {
                slot: TEMP_SLOT,
                n: 0,
            }),
            PutPhase::Writing { .. } => Step::Ask(Call::WriteAt {
                slot: TEMP_SLOT,
                at: 0,
                bytes: mem::replace(&mut self.item, Bytes::new(self.alloc)),
            }),
            PutPhase::Renaming { .. } => Step::Ask(Call::Rename {
                from: self.temp_name(),
                to: self.entry_name(),
            }),
            _ => Step::Done(Answer::NoMemory),
        }
    }

    /// Gives up what goes out once: the driver whose entry goes, and the answer.
    fn give(&mut self) -> Step
        ensures step { result ≡ given_in self.old.root self.old.key self.old.phase }
        ensures after { self.new ≡ record self.old { phase = after_giving self.old.phase } }
    {
        match mem::replace(&mut self.phase, PutPhase::Spent) {
            PutPhase::Evicting(driver) => {
                self.phase = PutPhase::Evicted;
                Step::Ask(Call::Tell(self.eviction(driver)))
            }
            PutPhase::Ended(answer) => Step::Done(answer),
            _ => Step::Done(Answer::NoMemory),
        }
    }
}

impl Machine for FolderPut {
    ghost use Rattle.folder_store.specs.PutPhases.{asks_put, asked_put, FedPut, put_slots_in, put_hurt_in, put_left_in};
    ghost use Rattle.folder_store.specs.PutLaws.{put_allowed, put_goes_on};

    ghost right = { λ m. Unit {0} };

    ghost asks = { asks_put };

    ghost asked = { asked_put };

    ghost fed = { FedPut };

    ghost slots = { λ m. put_slots_in m.phase };

    ghost hurt = { λ m. put_hurt_in m.phase };

    ghost left = { λ m. put_left_in m.phase };

    fn next(&mut self) -> Step {
        match &self.phase {
            PutPhase::Opening(_) => Step::Ask(Call::OpenOld {
                slot: ENTRY_SLOT,
                name: self.entry_name(),
            }),
            PutPhase::Measuring(_) => Step::Ask(Call::Length { slot: ENTRY_SLOT }),
            PutPhase::Reading(_, length) => Step::Ask(Call::ReadAt {
                slot: ENTRY_SLOT,
                at: 0,
                n: *length,
            }),
            PutPhase::ReadingFront => Step::Ask(Call::ReadAt {
                slot: ENTRY_SLOT,
                at: 0,
                n: LONGEST_FRONT,
            }),
            PutPhase::Leaving | PutPhase::ClosingEntry { .. } => {
                Step::Ask(Call::Close { slot: ENTRY_SLOT })
            }
            PutPhase::OpeningLock => Step::Ask(Call::OpenNew {
                slot: LOCK_SLOT,
                name: self.lock_name(),
            }),
            PutPhase::Locking { .. } => Step::Ask(Call::TryLock { slot: LOCK_SLOT }),
            PutPhase::Pausing { .. } => Step::Ask(Call::Pause),
            PutPhase::Making { .. }
            | PutPhase::Cutting { .. }
            | PutPhase::Writing { .. }
            | PutPhase::Renaming { .. } => self.change(),
            PutPhase::ClosingTemp(_) => Step::Ask(Call::Close { slot: TEMP_SLOT }),
            PutPhase::ClosingLock(_) => Step::Ask(Call::Close { slot: LOCK_SLOT }),
            PutPhase::Evicting(_) | PutPhase::Evicted | PutPhase::Ended(_) | PutPhase::Spent => {
                self.give()
            }
        }
    }

    fn feed(&mut self, reply: Reply) {
        let phase = mem::replace(&mut self.phase, PutPhase::Spent);
        self.phase = next_phase(&self.driver, phase, reply);
    }

    ghost allowed = { λ m right. put_allowed m };

    ghost goes_on = { λ m n reply right fed. put_goes_on m n reply fed };

    ghost stays = { λ m n call reply right asks answers fed. tt };
}
