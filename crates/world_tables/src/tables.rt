ghost use Rattle.std.specs.Prelude.{◌≡◌, ◌≤◌, ◌+◌, ◌∷◌, ◌++◌, [], Some, OnOk, OnErr, IfOk, IsSome, length, map, if◌then◌else◌};
ghost use Rattle.cache_types.specs.declared.name.Name.TheVariants.{Ro, RoIdx};
ghost use Rattle.file_log.specs.declared.call.Call.TheVariants.{OpenOld, OpenNew, TryLock, Cut, Close};
ghost use Rattle.file_log.specs.declared.item.LogItem.TheVariants.{Byte};
ghost use Rattle.file_log.specs.declared.reply.Reply.TheVariants.{Done};
ghost use Rattle.file_log.specs.Disk.{opening, number_from, rewritten, renamed, stopped, created, listed};
ghost use Rattle.cache_types.specs.Names.{same_name};
ghost use Rattle.cache_types.specs.declared.name.Name.{Name};
ghost use Rattle.file_log.specs.Effect.{after_call, done_call};
ghost use Rattle.file_log.specs.Writing.{written};
ghost use Rattle.world_tables.specs.Pieces.{items_of_run};
ghost use Rattle.world_tables.specs.Room.{closes, closes_by};
ghost use Rattle.world_tables.specs.Find.{number_in};
ghost use Rattle.world_tables.specs.Told.{with_news};

use crate::book::Book;
use crate::file::File;
use crate::find::{empty, empty_all, file_in};
use crate::locks::{self, LockHolder};
use crate::names::Names;
use crate::parts::OpenSlot;
use crate::piece::Run;
use cache_types::{Bytes, Name, NoMemory, Text, Who};
use file_log::{Call, Reply};
use lock_model::Holders;
use std::alloc::Global;

/// The files of a disk with their names, and who has them open and locked.
#[derive(Debug)]
pub struct Tables {
    pub names: Names,
    pub files: Vec<File>,
    pub slots: Vec<OpenSlot>,
    pub locks: Holders<LockHolder>,
}

impl Drop for Tables {
    fn drop(self) {
        let Tables {
            names: _names,
            files: _files,
            slots: _slots,
            locks: _locks,
        } = self;
    }
}

/// Gives a name an empty file, and a slot that file. It does both or neither.
fn add_file(
    alloc: Global,
    names: &mut Names,
    files: &mut Vec<File>,
    slots: &mut Vec<OpenSlot>,
    name: Name,
    who: Who,
    slot: u8,
) -> Result<(), NoMemory>
    ensures names { OnOk result ((n : Name) → number_in names.new n ≡ (if same_name name n then Some (length files.old.items) else number_in names.old n)) }
    ensures files { OnOk result (files.new.items ≡ files.old.items ++ [] ∷ []) }
    ensures slots { OnOk result (slots.new.items ≡ record { who = who; slot = slot; file = length files.old.items } ∷ slots.old.items) }
    ensures err { OnErr result (((n : Name) → number_in names.new n ≡ number_in names.old n) × (files.new.items ≡ files.old.items) × (slots.new.items ≡ slots.old.items)) }
{
    let file = files.len();
    files.reserve(1)?;
    slots.reserve(1)?;
    names.put(name, file)?;
    files.push(File::new(alloc))?;
    slots.insert(0, OpenSlot { who, slot, file })?;
    Ok(())
}

/// Names with the numbers of their files, which are numbered in their order. Of two files with one name
/// the first has it.
fn names_of(alloc: Global, start: &[(Name, Bytes)]) -> Result<Names, NoMemory>
    ensures { IfOk result (λ names. (n : Name) → number_in names n ≡ number_from 0 start.now n) }
{
    let mut names = Names::new(alloc);
    let mut file = 0;
    for pair in start {
        names.put_first(&pair.0, file)?;
        file += 1;
    }
    Ok(names)
}

/// Files with copies of these bytes.
fn files_of(alloc: Global, start: &[(Name, Bytes)]) -> Result<Vec<File>, NoMemory>
    ensures { IfOk result (λ files. files.items ≡ map (λ pair. pair.1) start.now) }
{
    let mut files = Vec::new(alloc);
    for pair in start {
        files.push(File::of(alloc, pair.1.as_slice())?)?;
    }
    Ok(files)
}

impl Tables {
    ghost use Rattle.world_tables.specs.Tables.{disk_at};

    /// No files. Takes no memory.
    pub fn new(alloc: Global) -> Tables
        ensures disk { disk_at result ≡ opening [] }
        ensures closes { closes result.slots.items ≡ 0 }
    {
        Tables {
            names: Names::new(alloc),
            files: Vec::new(alloc),
            slots: Vec::new(alloc),
            locks: Holders::new(alloc),
        }
    }

    /// These files, each with a copy of its bytes.
    pub fn of(alloc: Global, start: &[(Name, Bytes)]) -> Result<Tables, NoMemory>
        ensures disk { IfOk result (λ tables. disk_at tables ≡ opening start.now) }
        ensures closes { IfOk result (λ tables. closes tables.slots.items ≡ 0) }
    {
        Ok(Tables {
            names: names_of(alloc, start)?,
            files: files_of(alloc, start)?,
            slots: Vec::new(alloc),
            locks: Holders::new(alloc),
        })
    }

    /// The slot stands for the file that the name has.
    fn open(&mut self, who: Who, slot: u8, name: &Name) -> Result<(), NoMemory>
        ensures ok { OnOk result (disk_at self.new ≡ done_call (disk_at self.old) who (OpenOld slot name.now)) }
        ensures err { OnErr result (disk_at self.new ≡ disk_at self.old) }
        ensures closes { closes self.new.slots.items ≤ closes self.old.slots.items + 1 }
        ensures no_more { OnErr result (closes self.new.slots.items ≤ closes self.old.slots.items) }
    {
        match self.names.number_of(name) {
            None => empty(&mut self.slots, who, slot),
            Some(file) => self.slots.insert(0, OpenSlot { who, slot, file })?,
        }
        Ok(())
    }

    /// The same; a name without a file gets a new one.
    fn create(&mut self, alloc: Global, who: Who, slot: u8, name: &Name) -> Result<(), NoMemory>
        ensures ok { OnOk result (disk_at self.new ≡ done_call (disk_at self.old) who (OpenNew slot name.now)) }
        ensures err { OnErr result (disk_at self.new ≡ disk_at self.old) }
        ensures closes { closes self.new.slots.items ≤ closes self.old.slots.items + 1 }
        ensures no_more { OnErr result (closes self.new.slots.items ≤ closes self.old.slots.items) }
    {
        match self.names.number_of(name) {
            Some(file) => {
                self.slots.insert(0, OpenSlot { who, slot, file })?;
                Ok(())
            }
            None => {
                let held = name.copy()?;
                add_file(
                    alloc,
                    &mut self.names,
                    &mut self.files,
                    &mut self.slots,
                    held,
                    who,
                    slot,
                )?;
                Ok(())
            }
        }
    }

    /// Takes the lock of a slot's file, where nobody has it.
    fn lock(&mut self, who: Who, slot: u8) -> Result<(), NoMemory>
        ensures ok { OnOk result (disk_at self.new ≡ done_call (disk_at self.old) who (TryLock slot)) }
        ensures err { OnErr result (disk_at self.new ≡ disk_at self.old) }
        ensures slots { self.new.slots ≡ self.old.slots }
    {
        let Some(file) = file_in(&self.slots, who, slot) else {
            return Ok(());
        };
        locks::take(&mut self.locks, file, LockHolder { who, slot })
    }

    /// Cuts the file of a slot. Takes no memory.
    fn cut(&mut self, who: Who, slot: u8, n: u64)
        ensures disk { disk_at self.new ≡ done_call (disk_at self.old) who (Cut slot n) }
        ensures slots { self.new.slots ≡ self.old.slots }
    {
        let Some(file) = file_in(&self.slots, who, slot) else {
            return;
        };
        if file < self.files.len() {
            self.files[file].cut(n);
        }
    }

    /// The file of one name gets the other name in its place.
    fn rename(&mut self, from: &Name, to: &Name) -> Result<(), NoMemory>
        ensures ok { OnOk result (disk_at self.new ≡ renamed (disk_at self.old) ((disk_at self.old).names from.now) from.now to.now) }
        ensures err { OnErr result (disk_at self.new ≡ disk_at self.old) }
        ensures slots { self.new.slots ≡ self.old.slots }
    {
        let Some(file) = self.names.number_of(from) else {
            return Ok(());
        };
        self.names.put(to.copy()?, file)?;
        if !from.is(to) {
            self.names.forget(from);
        }
        Ok(())
    }

    /// Empties a slot and frees its lock. Takes no memory.
    pub fn close(&mut self, who: Who, slot: u8)
        ensures disk { disk_at self.new ≡ done_call (disk_at self.old) who (Close slot) }
        ensures fewer { IsSome ((disk_at self.old).slots who slot) → closes self.new.slots.items + 1 ≤ closes self.old.slots.items }
        ensures no_more { closes self.new.slots.items ≤ closes self.old.slots.items }
    {
        empty(&mut self.slots, who, slot);
        locks::free(&mut self.locks, who, slot);
    }

    /// Empties all slots of a process and frees all its locks. Takes no memory.
    pub fn stop(&mut self, process: u32)
        ensures disk { disk_at self.new ≡ stopped (disk_at self.old) process }
        ensures no_more { closes self.new.slots.items ≤ closes self.old.slots.items }
    {
        empty_all(&mut self.slots, process);
        locks::free_all(&mut self.locks, process);
    }

    /// The names of a read-only database get new files with copies of these bytes.
    pub fn install(
        &mut self,
        alloc: Global,
        root: u32,
        name: &Text,
        main: &Bytes,
        index: &Bytes,
    ) -> Result<(), NoMemory>
        ensures ok { OnOk result (disk_at self.new ≡ created (created (disk_at self.old) (Ro root name.now) main.now) (RoIdx root name.now) index.now) }
        ensures err { OnErr result (disk_at self.new ≡ disk_at self.old) }
        ensures slots { self.new.slots ≡ self.old.slots }
    {
        let main = File::of(alloc, main.as_slice())?;
        let index = File::of(alloc, index.as_slice())?;
        self.files.reserve(2)?;
        self.names.install(root, name, self.files.len())?;
        let _main = self.files.push(main);
        let _index = self.files.push(index);
        Ok(())
    }

    /// The list of read-only databases is a new file with a copy of this text, or absent.
    pub fn set_list(&mut self, alloc: Global, text: &Option<Bytes>) -> Result<(), NoMemory>
        ensures ok { OnOk result (disk_at self.new ≡ listed (disk_at self.old) text.now) }
        ensures err { OnErr result (disk_at self.new ≡ disk_at self.old) }
        ensures slots { self.new.slots ≡ self.old.slots }
    {
        let Some(text) = text else {
            self.names.forget(&Name::List);
            return Ok(());
        };
        let list = File::of(alloc, text.as_slice())?;
        self.files.reserve(1)?;
        self.names.put(Name::List, self.files.len())?;
        let _list = self.files.push(list);
        Ok(())
    }

    /// What a call does that is answered Done.
    fn take_effect(&mut self, alloc: Global, who: Who, call: &Call) -> Result<(), NoMemory>
        ensures ok { OnOk result (disk_at self.new ≡ done_call (disk_at self.old) who call.now) }
        ensures err { OnErr result (disk_at self.new ≡ disk_at self.old) }
        ensures closes { closes self.new.slots.items ≤ closes self.old.slots.items + closes_by call.now Done }
        ensures no_more { OnErr result (closes self.new.slots.items ≤ closes self.old.slots.items) }
    {
        match call {
            Call::OpenOld { slot, name } => self.open(who, *slot, name)?,
            Call::OpenNew { slot, name } => self.create(alloc, who, *slot, name)?,
            Call::TryLock { slot } => self.lock(who, *slot)?,
            Call::Cut { slot, n } => self.cut(who, *slot, *n),
            Call::Rename { from, to } => self.rename(from, to)?,
            Call::Remove { name } => self.names.forget(name),
            Call::Close { slot } => self.close(who, *slot),
            _ => {}
        }
        Ok(())
    }

    /// What an answered call does.
    pub fn answer(
        &mut self,
        alloc: Global,
        who: Who,
        call: &Call,
        reply: &Reply,
    ) -> Result<(), NoMemory>
        ensures ok { OnOk result (disk_at self.new ≡ after_call (disk_at self.old) who call.now reply.now) }
        ensures err { OnErr result (disk_at self.new ≡ disk_at self.old) }
        ensures closes { closes self.new.slots.items ≤ closes self.old.slots.items + closes_by call.now reply.now }
        ensures no_more { OnErr result (closes self.new.slots.items ≤ closes self.old.slots.items) }
    {
        match reply {
            Reply::Done => self.take_effect(alloc, who, call),
            _ => Ok(()),
        }
    }

    /// Writes one byte to the file of a slot, and tells it. It does both or neither.
    pub fn write_byte(
        &mut self,
        book: &mut Book,
        who: Who,
        slot: u8,
        at: u64,
        value: u8,
    ) -> Result<(), NoMemory>
        ensures ok { OnOk result (disk_at self.new ≡ rewritten (disk_at self.old) ((disk_at self.old).slots who slot) (written at (value ∷ []))) }
        ensures told { OnOk result (book.new ≡ with_news book.old (Byte who slot at value ∷ [])) }
        ensures err { OnErr result ((disk_at self.new ≡ disk_at self.old) × (book.new ≡ book.old)) }
        ensures slots { self.new.slots ≡ self.old.slots }
    {
        let Some(file) = file_in(&self.slots, who, slot) else {
            return Err(NoMemory);
        };
        if file >= self.files.len() {
            return Err(NoMemory);
        }
        self.files[file].put_byte(book, who, slot, at, value)
    }

    /// Writes a run to the file of a slot, and tells it. It does both or neither.
    pub fn write_run(&mut self, book: &mut Book, run: Run) -> Result<(), NoMemory>
        ensures ok { OnOk result (disk_at self.new ≡ rewritten (disk_at self.old) ((disk_at self.old).slots run.who run.slot) (written run.at run.bytes)) }
        ensures told { OnOk result (book.new ≡ with_news book.old (items_of_run run)) }
        ensures err { OnErr result ((disk_at self.new ≡ disk_at self.old) × (book.new ≡ book.old)) }
        ensures slots { self.new.slots ≡ self.old.slots }
    {
        let Some(file) = file_in(&self.slots, run.who, run.slot) else {
            return Err(NoMemory);
        };
        if file >= self.files.len() {
            return Err(NoMemory);
        }
        self.files[file].put_run(book, run)
    }
}
