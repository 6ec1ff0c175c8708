ghost use Rattle.std.specs.Prelude.{◌≡◌, [], None, IfOk, IfSome, is_some, take, drop, get_or, if◌then◌else◌};
ghost use Rattle.file_log.specs.declared.reply.Reply.TheVariants.{Done, Held};
ghost use Rattle.file_log.specs.Disk.{file_of};
ghost use Rattle.file_log.specs.Legal.{IsReply, is_slot_held};
ghost use Rattle.world_tables.specs.Calls.{SlotsFit, MakesOne, TellsClock};

use crate::file::File;
use crate::find::file_in;
use crate::listing::listing;
use crate::tables::Tables;
use cache_types::{Bytes, Name, NoMemory, Who};
use file_log::{Call, Reply};
use std::alloc::Global;

/// The bytes of the file with a number; none where there is no number.
pub fn bytes_in(files: &[File], file: Option<usize>) -> &[u8]
    ensures { IfSome file (λ f. result.now ≡ get_or files.now f []) }
{
    let Some(file) = file else {
        return &[];
    };
    match files.get(file) {
        None => &[],
        Some(found) => found.as_slice(),
    }
}

/// The bytes from a place on, so many of them or up to the end.
pub fn part(bytes: &[u8], at: u64, n: u64) -> &[u8]
    ensures { result.now ≡ take n (drop at bytes.now) }
{
    let len = bytes.len() as u64;
    let from = at.min(len);
    let to = from + n.min(len - from);
    &bytes[from as usize..to as usize]
}

impl Tables {
    ghost use Rattle.world_tables.specs.Tables.{disk_at};

    /// Whether a slot of a seat is filled.
    pub fn is_open(&self, who: Who, slot: u8) -> bool
        ensures { result ≡ is_some ((disk_at self.now).slots who slot) }
    {
        file_in(&self.slots, who, slot).is_some()
    }

    /// A copy of the bytes of the file that a name has.
    pub fn file(&self, alloc: Global, name: &Name) -> Result<Option<Bytes>, NoMemory>
        ensures { IfOk result (λ bytes. bytes ≡ file_of (disk_at self.now) name.now) }
    {
        match self.names.number_of(name) {
            None => Ok(None),
            Some(file) => {
                let bytes = Bytes::of(alloc, bytes_in(&self.files, Some(file)))?;
                Ok(Some(bytes))
            }
        }
    }

    /// What a call that makes one item is answered.
    pub fn reply_to(
        &self,
        alloc: Global,
        clock: u64,
        who: Who,
        call: &Call,
    ) -> Result<Reply, NoMemory>
        requires slots { SlotsFit (disk_at self.now) who call.now }
        requires one { MakesOne call.now }
        ensures reply { IfOk result (λ reply. IsReply (disk_at self.now) who call.now reply) }
        ensures clock { IfOk result (λ reply. TellsClock call.now clock reply) }
    {
        match call {
            Call::OpenOld { slot: _, name } => match self.names.number_of(name) {
                None => Ok(Reply::Missing),
                Some(_) => Ok(Reply::Done),
            },
            Call::TryLock { slot } => Ok(self.try_lock(who, *slot)),
            Call::Length { slot } => {
                let file = file_in(&self.slots, who, *slot);
                Ok(Reply::Number(bytes_in(&self.files, file).len() as u64))
            }
            Call::ReadAt { slot, at, n } => {
                let file = file_in(&self.slots, who, *slot);
                let got = part(bytes_in(&self.files, file), *at, *n);
                Ok(Reply::Got(Bytes::of(alloc, got)?))
            }
            Call::ListFolder { root, byte } => {
                let keys = listing(alloc, &self.names, *root, *byte)?;
                Ok(Reply::Keys(keys))
            }
            Call::Now => Ok(Reply::Number(clock)),
            _ => Ok(Reply::Done),
        }
    }

    /// Whether another seat has the lock of a slot's file.
    pub fn is_held(&self, who: Who, slot: u8) -> bool
        ensures { result ≡ is_slot_held (disk_at self.now) who slot }
    {
        let Some(file) = file_in(&self.slots, who, slot) else {
            return false;
        };
        match self.locks.holder_of(file as u64) {
            None => false,
            Some(holder) => !who.is(holder.who),
        }
    }

    /// What a TryLock is answered.
    fn try_lock(&self, who: Who, slot: u8) -> Reply
        ensures { result ≡ (if is_slot_held (disk_at self.now) who slot then Held else Done) }
    {
        if self.is_held(who, slot) {
            Reply::Held
        } else {
            Reply::Done
        }
    }
}
