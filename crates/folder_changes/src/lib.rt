//! What items change on folder stores: what holds at each place of a log whose items keep the rules, what
//! another seat's item leaves to a seat that has a folder's lock, and which own items keep the rules. No
//! code calls these laws.
#![tactic(auto)]

ghost use Rattle.folder_changes.specs.Course.{OperationsMeet, OperationsEarn, IdleMayBegin};
ghost use Rattle.folder_changes.specs.Frame.{OthersLeave};
ghost use Rattle.folder_changes.specs.Order.{StaysInOrder};
ghost use Rattle.folder_changes.specs.Own.{StillKeeps, MakingKeeps, WritingKeeps, InstallingKeeps, ReplacingEvicts};

/// A log whose items can come and keep the rules is in order at each place.
pub fn logs_stay_in_order()
    ensures { StaysInOrder }
{}

/// An item of another seat that keeps the rules leaves a seat its slots and locks, and of the folders
/// that it has locked the entries and the temporary files.
pub fn others_leave_locked_folders()
    ensures { OthersLeave }
{}

/// Where all is in order, a seat's own items keep the rules that change nothing, that make a file, that
/// write a file under its lock, or that put a whole item in its entry's place and evict what stood there.
pub fn own_items_keep_the_rules()
    ensures still { StillKeeps }
    ensures making { MakingKeeps }
    ensures writing { WritingKeeps }
    ensures installing { InstallingKeeps }
    ensures replacing { ReplacingEvicts }
{}

/// A seat that knows of no open operation may begin one. What its open operation has met, it has met after
/// each further item, and by that it earns its answer.
pub fn operations_earn_answers()
    ensures beginning { IdleMayBegin }
    ensures meeting { OperationsMeet }
    ensures earning { OperationsEarn }
{}
