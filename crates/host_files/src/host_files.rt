ghost use Rattle.std.specs.Prelude.{◌≡◌};

use crate::fault::Fault;
use crate::first_fault::FirstFault;
use crate::opened::Opened;
use crate::reason::Reason;
use crate::seat::Seat;
use crate::{opening, system};
use cache_types::{Answer, Bytes, Name, NoMemory, Request, Text, Who};
use file_log::{Call, Note, Reply};
use files_api::Files;
use path_names::{Paths, has_path, path_of};
use std::alloc::Global;
use std::fs::File;
use std::rt::{Clock, Files as RealFiles};

/// Real files under a program's paths, which one seat calls. No log is told.
///
/// - `Missing` is answered only where the system finds nothing at the path. A folder in a file's place, a
///   path through a plain file and a file that can't be opened are faults; a folder in the place of a file that is only
///   read is one once its length is asked for.
/// - An entry, a read-only database and the list are opened for reading alone. Another old file is opened for reading and
///   writing, and where that is denied for reading alone; a later write of it is then a fault.
/// - A new file gets the folders that it lies in. Both are for their user alone. No file is made over a link, and in the
///   place of a temporary file what isn't plain, a link too, is removed first.
/// - A lock is the system's own on the open file: it excludes every other opening of the file, and is free
///   once its slot is closed or its process ends.
/// - A reading or writing that the system does in part or that a signal interrupts goes on until it is done. A writing
///   that fails leaves no longer file than it found.
/// - The clock's number is nanoseconds since 1970. A pause yields to others at first, and after some of them
///   sleeps, at last 10 milliseconds.
/// - The system's want of memory is `NoMemory`; each other refusal is `Failed`, and is counted. The first that is counted
///   is kept with its path and its reason, for whoever tells a person why: `first_fault`.
#[derive(Drop)]
pub struct HostFiles<R: RealFiles<File = File> + Clock + Drop> {
    alloc: Global,
    rt: R,
    paths: Paths,
    seat: Seat,
    /// How often the seat paused since it last took a lock or told a note.
    waits: u32,
}

impl<R: RealFiles<File = File> + Clock + Drop> HostFiles<R> {
    ghost use Rattle.std.specs.Prelude.{◌≡◌, ℕ, ◌+◌, ◌-◌, ◌^◌, min, option_copied, Ok, Err, IfOk, IfErr, IfSome, IsNone};
    ghost use Rattle.file_log.specs.declared.call.Call.TheVariants as calls;
    ghost use Rattle.file_log.specs.declared.reply.Reply.TheVariants as replies;
    ghost use Rattle.file_log.specs.Seat.{IsFilled, IsEmpty, IsIdle, SlotFits};
    ghost use Rattle.path_names.specs.Paths.{HasPath, HasRoot, path_spelled};
    ghost use Rattle.file_log.specs.Exchange.{MayFail};
    ghost use Rattle.host_files.specs.Calls.{HasPaths};
    ghost use Rattle.host_files.specs.Paths.{IsPathOrNone, IsPathOfCall, IsFaultOfCall, paths_after};
    ghost use Rattle.host_files.specs.Slots.{filled_in, path_of_slot};
    ghost use Rattle.host_files.specs.Seats.{Acts, Went};
    ghost use Rattle.host_files.specs.declared.fault.Fault.TheVariants as faults;
    ghost use Rattle.host_files.specs.declared.reason.Reason.TheVariants as reasons;

    /// Files under these paths for a seat, all of whose slots are empty. No file is opened or made.
    pub fn new(alloc: Global, rt: R, me: Who, paths: Paths) -> Result<HostFiles<R>, NoMemory>
        ensures idle { IfOk result (λ f. IsIdle (⟦<HostFiles<R> as Files>⟧.seen f)) }
        ensures me { IfOk result (λ f. ⟦<HostFiles<R> as Files>⟧.me f ≡ me) }
        ensures faults { IfOk result (λ f. ⟦<HostFiles<R> as Files>⟧.faults f ≡ 0) }
        ensures paths { IfOk result (λ f. f.paths ≡ paths) }
    {
        Ok(HostFiles {
            alloc,
            rt,
            paths,
            seat: Seat::new(me),
            waits: 0,
        })
    }

    /// The first call that failed: none as long as none did, and where there was no memory for its path.
    pub fn first_fault(&self) -> Option<&FirstFault>
        ensures first { option_copied result ≡ self.now.seat.first }
        ensures none { ⟦<HostFiles<R> as Files>⟧.faults self.now ≡ 0 → IsNone result }
    {
        self.seat.first()
    }

    /// The path of a name. `Failed` exactly where it has none.
    fn path(&self, name: &Name) -> Result<Text, Fault>
        ensures path { IfOk result (λ t. t ≡ path_spelled self.now.paths name.now) }
        ensures memory { HasPath self.now.paths name.now → IfErr result (λ f. f ≡ faults.NoMemory) }
        ensures outside { (HasPath self.now.paths name.now → ⊥) → result ≡ Err (faults.Failed reasons.NoPath) }
    {
        if !has_path(&self.paths, name) {
            return Err(Fault::Failed(Reason::NoPath));
        }
        Ok(path_of(self.alloc, &self.paths, name)?)
    }

    fn open_old(&mut self, slot: u8, name: &Name) -> Result<Reply, Fault>
        requires { IsEmpty (filled_in self.old.seat.slots) slot }
        ensures went { Went self.old.seat (calls.OpenOld slot name.now) result self.new.seat }
        ensures slots { IfOk result (λ reply. (at : ℕ) → path_of_slot self.new.seat.slots at ≡ paths_after self.old.paths (calls.OpenOld slot name.now) reply self.old.seat.slots at) }
        ensures rest { self.new ≡ record self.old { seat = self.new.seat } }
        ensures outside { (HasPath self.old.paths name.now → ⊥) → result ≡ Err (faults.Failed reasons.NoPath) }
    {
        let path = self.path(name)?;
        match opening::open_old(&self.rt, name, path.as_str())? {
            Some(file) => {
                self.seat.fill(slot, Opened { file, path });
                Ok(Reply::Done)
            }
            None => Ok(Reply::Missing),
        }
    }

    fn open_new(&mut self, slot: u8, name: &Name) -> Result<Reply, Fault>
        requires { IsEmpty (filled_in self.old.seat.slots) slot }
        ensures went { Went self.old.seat (calls.OpenNew slot name.now) result self.new.seat }
        ensures slots { IfOk result (λ reply. (at : ℕ) → path_of_slot self.new.seat.slots at ≡ paths_after self.old.paths (calls.OpenNew slot name.now) reply self.old.seat.slots at) }
        ensures rest { self.new ≡ record self.old { seat = self.new.seat } }
        ensures outside { (HasPath self.old.paths name.now → ⊥) → result ≡ Err (faults.Failed reasons.NoPath) }
    {
        let path = self.path(name)?;
        let file = opening::open_new(&self.rt, name, path.as_str())?;
        self.seat.fill(slot, Opened { file, path });
        Ok(Reply::Done)
    }

    fn try_lock(&mut self, slot: u8) -> Result<Reply, Fault>
        requires { IsFilled (filled_in self.old.seat.slots) slot }
        ensures went { Went self.old.seat (calls.TryLock slot) result self.new.seat }
        ensures waits { result ≡ Ok replies.Done → self.new.waits ≡ 0 }
        ensures rest { self.new ≡ record self.old { waits = self.new.waits } }
    {
        if !system::take_lock(&self.seat.opened(slot).file)? {
            return Ok(Reply::Held);
        }
        self.waits = 0;
        Ok(Reply::Done)
    }

    fn length(&self, slot: u8) -> Result<Reply, Fault>
        requires { IsFilled (filled_in self.now.seat.slots) slot }
        ensures { Went self.now.seat (calls.Length slot) result self.now.seat }
    {
        Ok(Reply::Number(system::length(&self.seat.opened(slot).file)?))
    }

    fn read_at(&self, slot: u8, at: u64, n: u64) -> Result<Reply, Fault>
        requires { IsFilled (filled_in self.now.seat.slots) slot }
        ensures { Went self.now.seat (calls.ReadAt slot at n) result self.now.seat }
    {
        let bytes = system::read(self.alloc, &self.seat.opened(slot).file, at, n)?;
        Ok(Reply::Got(bytes))
    }

    fn write_at(&self, slot: u8, at: u64, bytes: &Bytes) -> Result<Reply, Fault>
        requires { IsFilled (filled_in self.now.seat.slots) slot }
        ensures { Went self.now.seat (calls.WriteAt slot at bytes.now) result self.now.seat }
    {
        system::write(&self.seat.opened(slot).file, at, bytes.as_slice())?;
        Ok(Reply::Done)
    }

    fn cut(&self, slot: u8, n: u64) -> Result<Reply, Fault>
        requires { IsFilled (filled_in self.now.seat.slots) slot }
        ensures { Went self.now.seat (calls.Cut slot n) result self.now.seat }
    {
        system::cut(&self.seat.opened(slot).file, n)?;
        Ok(Reply::Done)
    }

    fn rename(&self, from: &Name, to: &Name) -> Result<Reply, Fault>
        ensures went { Went self.now.seat (calls.Rename from.now to.now) result self.now.seat }
        ensures outside { (HasPaths self.now.paths (calls.Rename from.now to.now) → ⊥) → result ≡ Err (faults.Failed reasons.NoPath) }
    {
        if !has_path(&self.paths, to) {
            return Err(Fault::Failed(Reason::NoPath));
        }
        let from = self.path(from)?;
        let to = self.path(to)?;
        system::rename(&self.rt, from.as_str(), to.as_str())?;
        Ok(Reply::Done)
    }

    fn remove(&self, name: &Name) -> Result<Reply, Fault>
        ensures went { Went self.now.seat (calls.Remove name.now) result self.now.seat }
        ensures outside { (HasPath self.now.paths name.now → ⊥) → result ≡ Err (faults.Failed reasons.NoPath) }
    {
        let path = self.path(name)?;
        system::remove(&self.rt, path.as_str())?;
        Ok(Reply::Done)
    }

    fn list(&self, root: u32, byte: u8) -> Result<Reply, Fault>
        ensures went { Went self.now.seat (calls.ListFolder root byte) result self.now.seat }
        ensures outside { (HasRoot self.now.paths root → ⊥) → result ≡ Err (faults.Failed reasons.NoPath) }
    {
        let lock = self.path(&Name::FolderLock { root, byte })?;
        let folder = system::folder_of(lock.as_str());
        let keys = system::list(self.alloc, &self.rt, folder, byte)?;
        Ok(Reply::Keys(keys))
    }

    fn now(&self) -> Result<Reply, Fault>
        ensures { Went self.now.seat calls.Now result self.now.seat }
    {
        Ok(Reply::Number(system::now(&self.rt)?))
    }

    fn pause(&mut self)
        ensures acts { Acts self.old.seat calls.Pause replies.Done self.new.seat }
        ensures rest { self.new ≡ record self.old { waits = min (self.old.waits + 1) (2 ^ 32 - 1) } }
    {
        system::wait(&self.rt, self.waits);
        self.waits = self.waits.saturating_add(1);
    }

    fn tell(&mut self, note: &Note)
        ensures acts { Acts self.old.seat (calls.Tell note.now) replies.Done self.new.seat }
        ensures slots { self.new.seat.slots ≡ self.old.seat.slots }
        ensures rest { self.new ≡ record self.old { seat = self.new.seat; waits = 0 } }
    {
        self.waits = 0;
        self.seat.tell(note);
    }

    /// Makes a call, if it can be done.
    fn tried(&mut self, c: &Call) -> Result<Reply, Fault>
        requires slots { SlotFits (filled_in self.old.seat.slots) c.now }
        ensures went { Went self.old.seat c.now result self.new.seat }
        ensures slots { IfOk result (λ reply. (at : ℕ) → path_of_slot self.new.seat.slots at ≡ paths_after self.old.paths c.now reply self.old.seat.slots at) }
        ensures outside { (HasPaths self.old.paths c.now → ⊥) → result ≡ Err (faults.Failed reasons.NoPath) }
        ensures rest { self.new ≡ record self.old { seat = self.new.seat; waits = self.new.waits } }
    {
        match c {
            Call::OpenOld { slot, name } => self.open_old(*slot, name),
            Call::OpenNew { slot, name } => self.open_new(*slot, name),
            Call::TryLock { slot } => self.try_lock(*slot),
            Call::Length { slot } => self.length(*slot),
            Call::ReadAt { slot, at, n } => self.read_at(*slot, *at, *n),
            Call::WriteAt { slot, at, bytes } => self.write_at(*slot, *at, bytes),
            Call::Cut { slot, n } => self.cut(*slot, *n),
            Call::Rename { from, to } => self.rename(from, to),
            Call::Remove { name } => self.remove(name),
            Call::ListFolder { root, byte } => self.list(*root, *byte),
            Call::Now => self.now(),
            Call::Pause => {
                self.pause();
                Ok(Reply::Done)
            }
            Call::Close { slot } => {
                self.seat.close(*slot);
                Ok(Reply::Done)
            }
            Call::Tell(note) => {
                self.tell(note);
                Ok(Reply::Done)
            }
        }
    }

    /// The path of a name, or no text where it has none.
    fn path_or_none(&self, name: &Name) -> Result<Text, NoMemory>
        ensures { IfOk result (IsPathOrNone self.now.paths name.now) }
    {
        if has_path(&self.paths, name) {
            path_of(self.alloc, &self.paths, name)
        } else {
            Text::of(self.alloc, "")
        }
    }

    /// The path of an entries' folder, or no text where its root has none.
    fn folder_or_none(&self, root: u32, byte: u8) -> Result<Text, NoMemory>
        ensures { IfOk result (IsPathOfCall self.now.paths self.now.seat.slots (calls.ListFolder root byte)) }
    {
        let lock = self.path_or_none(&Name::FolderLock { root, byte })?;
        Text::of(self.alloc, system::folder_of(lock.as_str()))
    }

    /// The path that a call names, or no text.
    fn path_named(&self, c: &Call) -> Result<Text, NoMemory>
        requires { SlotFits (filled_in self.now.seat.slots) c.now }
        ensures { IfOk result (IsPathOfCall self.now.paths self.now.seat.slots c.now) }
    {
        match c {
            Call::OpenOld { name, .. } | Call::OpenNew { name, .. } | Call::Remove { name } => {
                self.path_or_none(name)
            }
            Call::Rename { to, .. } => self.path_or_none(to),
            Call::TryLock { slot }
            | Call::Length { slot }
            | Call::ReadAt { slot, .. }
            | Call::WriteAt { slot, .. }
            | Call::Cut { slot, .. } => self.seat.opened(*slot).path.copy(),
            Call::ListFolder { root, byte } => self.folder_or_none(*root, *byte),
            Call::Now | Call::Pause | Call::Close { .. } | Call::Tell(_) => {
                Text::of(self.alloc, "")
            }
        }
    }

    /// A call failed. The first that did is kept, if there is memory for its path.
    fn fail(&mut self, c: &Call, reason: Reason) -> Reply
        requires slots { SlotFits (filled_in self.old.seat.slots) c.now }
        requires may { MayFail c.now }
        ensures reply { result ≡ replies.Failed }
        ensures acts { Acts self.old.seat c.now result self.new.seat }
        ensures path { self.old.seat.faults ≡ 0 → IfSome self.new.seat.first (λ first. IsPathOfCall self.old.paths self.old.seat.slots c.now first.path) }
        ensures reason { self.old.seat.faults ≡ 0 → IfSome self.new.seat.first (λ first. first.reason ≡ reason) }
        ensures slots { self.new.seat.slots ≡ self.old.seat.slots }
        ensures rest { self.new ≡ record self.old { seat = self.new.seat } }
    {
        if self.seat.has_failed() {
            return self.seat.fail();
        }
        match self.path_named(c) {
            Ok(path) => self.seat.fail_first(FirstFault { path, reason }),
            Err(NoMemory) => self.seat.fail(),
        }
    }

    /// Makes a call and answers it.
    fn made(&mut self, c: &Call) -> Reply
        requires slots { SlotFits (filled_in self.old.seat.slots) c.now }
        ensures acts { Acts self.old.seat c.now result self.new.seat }
        ensures outside { (HasPaths self.old.paths c.now → ⊥) → result ≡ replies.Failed }
        ensures first { result ≡ replies.Failed → self.old.seat.faults ≡ 0 → IfSome self.new.seat.first (IsFaultOfCall self.old.paths self.old.seat.slots c.now) }
        ensures slots { (at : ℕ) → path_of_slot self.new.seat.slots at ≡ paths_after self.old.paths c.now result self.old.seat.slots at }
        ensures paths { self.new.paths ≡ self.old.paths }
    {
        match self.tried(c) {
            Ok(reply) => reply,
            Err(Fault::Failed(reason)) => self.fail(c, reason),
            Err(Fault::NoMemory) => self.seat.lack(),
        }
    }
}

impl<R: RealFiles<File = File> + Clock + Drop> Files for HostFiles<R> {
    ghost use Rattle.std.specs.Prelude.{◌≡◌, ℕ, None, IfSome};
    ghost use Rattle.file_log.specs.declared.reply.Reply.TheVariants.{Failed};
    ghost use Rattle.file_log.specs.Exchange.{Answers};
    ghost use Rattle.file_log.specs.Seat.{MayCall, IsSeen, seen_after};
    ghost use Rattle.file_log.specs.Told.{Called, HasCause};
    ghost use Rattle.host_files.specs.Calls.{HasPaths};
    ghost use Rattle.host_files.specs.Faults.{count_after};
    ghost use Rattle.host_files.specs.Paths.{IsFaultOfCall, paths_after};
    ghost use Rattle.host_files.specs.Seats.{KeepsFirst, seen_of};
    ghost use Rattle.host_files.specs.Slots.{path_of_slot};

    ghost history = { λ _. None };

    ghost me = { λ f. f.seat.me };

    ghost seen = { λ f. seen_of f.seat };

    ghost faults = { λ f. f.seat.faults };

    /// Makes a call.
    ///
    /// A name that has no path, or a root that isn't there, makes no call of the system and is answered
    /// `Failed`. Each `Failed` is counted once, and the first is kept: the path that the call names, and why it failed.
    fn call(&mut self, c: Call) -> Reply
        requires may { MayCall (seen_of self.old.seat) c }
        ensures fits { Answers self.old.seat.inside c result }
        ensures me { self.new.seat.me ≡ self.old.seat.me }
        ensures seen { IsSeen (seen_of self.new.seat) (seen_after (seen_of self.old.seat) c result) }
        ensures told { Called self.old.seat.me self.old.seat.inside c result None None }
        ensures cause { HasCause self.old.seat.faults self.new.seat.faults result }

        ensures count { self.new.seat.faults ≡ count_after result self.old.seat.faults }
        ensures outside { (HasPaths self.old.paths c → ⊥) → result ≡ Failed }
        ensures first { result ≡ Failed → self.old.seat.faults ≡ 0 → IfSome self.new.seat.first (IsFaultOfCall self.old.paths self.old.seat.slots c) }
        ensures kept { KeepsFirst self.old.seat result self.new.seat }
        ensures slots { (at : ℕ) → path_of_slot self.new.seat.slots at ≡ paths_after self.old.paths c result self.old.seat.slots at }
        ensures paths { self.new.paths ≡ self.old.paths }
    {
        self.made(&c)
    }

    /// No log is told, so the request isn't copied.
    fn begin(&mut self, _alloc: Global, _request: &Request) -> bool {
        self.waits = 0;
        self.seat.begin();
        true
    }

    /// No log is told, so the answer isn't copied.
    fn end(&mut self, _alloc: Global, _answer: &Answer) -> bool {
        self.waits = 0;
        self.seat.end();
        true
    }

    fn known(&self) {}
}

#[cfg(test)]
mod tests;
