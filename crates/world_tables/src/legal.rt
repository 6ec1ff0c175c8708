ghost use Rattle.std.specs.Prelude.{◌≡◌, ◌↔◌, None, IsTrue, IsSomeAnd, IfOk, take, drop, length};
ghost use Rattle.file_log.specs.Disk.{bytes_at};
ghost use Rattle.file_log.specs.Legal.{IsFree, IsOpen, IsReply, IsDone, IsMissing, IsHeld, IsGot, IsNumber, IsListing};

use crate::find::file_in;
use crate::listing::listing;
use crate::replies::{bytes_in, part};
use crate::tables::Tables;
use cache_types::{Bytes, Key, KeyList, Name, NoMemory, Who};
use file_log::{Call, Reply};
use std::alloc::Global;

/// Whether these bytes are the same.
fn same_bytes(a: &[u8], b: &[u8]) -> bool
    ensures { IsTrue result ↔ (a.now ≡ b.now) }
{
    a == b
}

/// Whether these keys are the same.
fn same_keys(a: &[Key], b: &[Key]) -> bool
    ensures { IsTrue result ↔ (a.now ≡ b.now) }
{
    a == b
}

impl Tables {
    ghost use Rattle.world_tables.specs.Tables.{disk_at};

    /// Whether a name has no file.
    pub fn lacks(&self, name: &Name) -> bool
        ensures { IsTrue result ↔ ((disk_at self.now).names name.now ≡ None) }
    {
        self.names.number_of(name).is_none()
    }

    /// Whether a slot is one of eight, and filled.
    pub fn is_ready(&self, who: Who, slot: u8) -> bool
        ensures { IsTrue result ↔ IsOpen (disk_at self.now) who slot }
    {
        slot < 8 && self.is_open(who, slot)
    }

    /// Whether a slot is one of eight, and empty.
    fn is_free(&self, who: Who, slot: u8) -> bool
        ensures { IsTrue result ↔ IsFree (disk_at self.now) who slot }
    {
        slot < 8 && !self.is_open(who, slot)
    }

    /// Whether a call can be made and be answered Done.
    fn can_be_done(&self, who: Who, call: &Call) -> bool
        ensures { IsTrue result ↔ IsDone (disk_at self.now) who call.now }
    {
        match call {
            Call::OpenOld { slot, name } => self.is_free(who, *slot) && !self.lacks(name),
            Call::OpenNew { slot, name: _ } => self.is_free(who, *slot),
            Call::TryLock { slot } => self.is_ready(who, *slot) && !self.is_held(who, *slot),
            Call::WriteAt { slot, at: _, bytes } => self.is_ready(who, *slot) && bytes.is_empty(),
            Call::Cut { slot, n: _ } => self.is_ready(who, *slot),
            Call::Close { slot } => self.is_ready(who, *slot),
            Call::Rename { from: _, to: _ } => true,
            Call::Remove { name: _ } => true,
            Call::Pause => true,
            _ => false,
        }
    }

    /// Whether a call can be made and be answered Missing.
    fn can_be_missing(&self, who: Who, call: &Call) -> bool
        ensures { IsTrue result ↔ IsMissing (disk_at self.now) who call.now }
    {
        match call {
            Call::OpenOld { slot, name } => self.is_free(who, *slot) && self.lacks(name),
            _ => false,
        }
    }

    /// Whether a call can be made and be answered Held.
    fn can_be_held(&self, who: Who, call: &Call) -> bool
        ensures { IsTrue result ↔ IsHeld (disk_at self.now) who call.now }
    {
        match call {
            Call::TryLock { slot } => self.is_ready(who, *slot) && self.is_held(who, *slot),
            _ => false,
        }
    }

    /// Whether these are the bytes of a slot's file from a place on, so many or up to its end.
    fn reads(&self, who: Who, slot: u8, at: u64, n: u64, bytes: &Bytes) -> bool
        ensures { IsTrue result ↔ IsSomeAnd (bytes_at (disk_at self.now) who slot) (λ whole. bytes.now ≡ take n (drop at whole)) }
    {
        let Some(file) = file_in(&self.slots, who, slot) else {
            return false;
        };
        same_bytes(
            bytes.as_slice(),
            part(bytes_in(&self.files, Some(file)), at, n),
        )
    }

    /// Whether this is the length of a slot's file.
    fn measures(&self, who: Who, slot: u8, len: u64) -> bool
        ensures { IsTrue result ↔ IsSomeAnd (bytes_at (disk_at self.now) who slot) (λ whole. len ≡ length whole) }
    {
        let Some(file) = file_in(&self.slots, who, slot) else {
            return false;
        };
        bytes_in(&self.files, Some(file)).len() as u64 == len
    }

    /// Whether a call can be made and be answered with these bytes.
    fn can_get(&self, who: Who, call: &Call, bytes: &Bytes) -> bool
        ensures { IsTrue result ↔ IsGot (disk_at self.now) who call.now bytes.now }
    {
        match call {
            Call::ReadAt { slot, at, n } => {
                self.is_ready(who, *slot) && self.reads(who, *slot, *at, *n, bytes)
            }
            _ => false,
        }
    }

    /// Whether a call can be made and be answered with this number.
    fn can_number(&self, who: Who, call: &Call, number: u64) -> bool
        ensures { IsTrue result ↔ IsNumber (disk_at self.now) who call.now number }
    {
        match call {
            Call::Length { slot } => {
                self.is_ready(who, *slot) && self.measures(who, *slot, number)
            }
            Call::Now => true,
            _ => false,
        }
    }

    /// Whether these are the keys of all entries in a folder of a root, ascending.
    fn lists(&self, alloc: Global, root: u32, byte: u8, keys: &KeyList) -> Result<bool, NoMemory>
        ensures { IfOk result (λ same. IsTrue same ↔ IsListing (disk_at self.now) root byte keys.now) }
    {
        let all = listing(alloc, &self.names, root, byte)?;
        Ok(same_keys(all.as_slice(), keys.as_slice()))
    }

    /// Whether a call that makes one item can be made and be answered so.
    pub fn can_answer(
        &self,
        alloc: Global,
        who: Who,
        call: &Call,
        reply: &Reply,
    ) -> Result<bool, NoMemory>
        ensures { IfOk result (λ can. IsTrue can ↔ IsReply (disk_at self.now) who call.now reply.now) }
    {
        match reply {
            Reply::Done => Ok(self.can_be_done(who, call)),
            Reply::Missing => Ok(self.can_be_missing(who, call)),
            Reply::Held => Ok(self.can_be_held(who, call)),
            Reply::Got(bytes) => Ok(self.can_get(who, call, bytes)),
            Reply::Number(number) => Ok(self.can_number(who, call, *number)),
            Reply::Keys(keys) => match call {
                Call::ListFolder { root, byte } => self.lists(alloc, *root, *byte, keys),
                _ => Ok(false),
            },
            Reply::Failed => Ok(false),
            Reply::NoMemory => Ok(false),
        }
    }
}
