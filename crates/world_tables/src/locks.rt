ghost use Rattle.std.specs.Prelude.{◌≡◌, ◌&&◌, ℕ, None, nat_eq, OnOk, OnErr, if◌then◌else◌};
ghost use Rattle.cache_types.specs.Seats.{same_seat};
ghost use Rattle.file_log.specs.Disk.{is_slot, is_process, lock_taken};
ghost use Rattle.world_tables.specs.Locks.{lock_of, lock_from};

use cache_types::{NoMemory, Who};
use lock_model::{Group, Holders};

/// The slot of a seat through which a lock was taken.
#[derive(Clone, Copy, Debug, PartialEq, Eq)]
pub struct LockHolder {
    pub who: Who,
    pub slot: u8,
}

impl Group<LockHolder> for LockHolder {
    ghost has = { λ me holder. same_seat holder.who me.who && nat_eq me.slot holder.slot };

    fn has(&self, holder: &LockHolder) -> bool {
        holder.who.is(self.who) && self.slot == holder.slot
    }
}

/// All slots of the seats of a process.
#[derive(Clone, Copy, Debug, PartialEq, Eq)]
pub struct OfProcess(pub u32);

impl Group<LockHolder> for OfProcess {
    ghost has = { λ these holder. nat_eq holder.who.process these.0 };

    fn has(&self, holder: &LockHolder) -> bool {
        holder.who.process == self.0
    }
}

/// Takes the lock of a file, where nobody has it. A refusal changes nothing.
pub fn take(
    locks: &mut Holders<LockHolder>,
    file: usize,
    holder: LockHolder,
) -> Result<(), NoMemory>
    ensures ok { OnOk result ((f : ℕ) → lock_of locks.new f ≡ (if nat_eq file f then lock_taken (lock_of locks.old file) (lock_from holder) else lock_of locks.old f)) }
    ensures err { OnErr result (locks.new ≡ locks.old) }
{
    let number = file as u64;
    if locks.holder_of(number).is_some() {
        return Ok(());
    }
    match locks.give(number, holder) {
        Ok(()) => Ok(()),
        Err(_) => Err(NoMemory),
    }
}

/// Frees the locks that were taken through a slot.
pub fn free(locks: &mut Holders<LockHolder>, who: Who, slot: u8)
    ensures { (f : ℕ) → lock_of locks.new f ≡ (if is_slot (lock_of locks.old f) who slot then None else lock_of locks.old f) }
{
    locks.free_all(&LockHolder { who, slot });
}

/// Frees the locks of a process.
pub fn free_all(locks: &mut Holders<LockHolder>, process: u32)
    ensures { (f : ℕ) → lock_of locks.new f ≡ (if is_process process (lock_of locks.old f) then None else lock_of locks.old f) }
{
    locks.free_all(&OfProcess(process));
}
