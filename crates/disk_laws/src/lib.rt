//! What holds of every disk, whatever seats do: laws that every store stands on. No code calls them.
#![tactic(auto)]

ghost use Rattle.file_log.specs.Log.{History};
ghost use Rattle.file_log.specs.State.{disk_of};
ghost use Rattle.disk_laws.specs.Locks.{LeavesLocks, LoneHolds};
ghost use Rattle.disk_laws.specs.Slots.{LeavesSlots};
ghost use Rattle.disk_laws.specs.Tidy.{IsTidy};

/// After every log the file of each name, of each slot and of each lock is there, and no two names have one
/// file.
pub fn disks_are_tidy()
    ensures { (h : History) → IsTidy (disk_of h) }
{}

/// An item of another seat, which stops no process of this one, leaves this seat's slots as they are.
pub fn others_leave_slots()
    ensures { LeavesSlots }
{}

/// An item of another seat, which stops no process of this one, frees none of this seat's locks and takes
/// none.
pub fn others_leave_locks()
    ensures { LeavesLocks }
{}

/// After a log whose items are all one seat's no other seat holds a lock.
pub fn lone_seats_hold_alone()
    ensures { LoneHolds }
{}
