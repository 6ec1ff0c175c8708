ghost use Rattle.std.specs.Prelude.{◌≡◌, ◌<◌, ◌||◌, ℕ, List, Some, OnOk, OnErr, IfOk};
ghost use Rattle.std.specs.Vec.{vec_len, vec_capacity};
ghost use Rattle.cache_types.specs.declared.name.Name.{Name};
ghost use Rattle.file_log.specs.Disk.{Disk};
ghost use Rattle.file_log.specs.Effect.{applied};
ghost use Rattle.file_log.specs.Operation.{is_fault as the_fault};
ghost use Rattle.file_log.specs.declared.call.Call.TheVariants.{TryLock};
ghost use Rattle.file_log.specs.declared.item.LogItem.TheVariants.{Did};
ghost use Rattle.seat_rules.specs.Answers.{root_of as the_root};
ghost use Rattle.log_summary.specs.Summary.{Operation, Summary, begun, goes_on, is_64th, is_held_reply, is_last_try, row_after, summed};
ghost use Rattle.rule_checks.specs.Tests.{same_number};

use crate::entry::{entry_of, read_entry};
use crate::given::{Lately, learn};
use crate::locks::{is_lock_file, root_of};
use crate::names_had::NamesHad;
use crate::tries::{HeldTries, TRIES_BEFORE, count_try, tries_of};
use cache_types::{Bytes, NoMemory, Request, Who};
use file_log::{Call, LogItem, Reply};
use std::alloc::Global;
use world_tables::{Tables, file_in};

/// An operation that a seat is in.
#[derive(Debug, Drop)]
pub struct OpenOperation {
    /// What it was asked for.
    pub request: Request,
    /// What its store gave after its items, each blob once.
    pub gave: Vec<Option<Bytes>>,
    /// The file that its entry had after its last item. What that reads as stands in `gave`.
    pub entry: Option<usize>,
    /// Whether a call of it failed, other than for want of memory.
    pub failed: bool,
    /// How often in a row another seat had each lock.
    pub tries: Vec<HeldTries>,
    /// Whether it was held off 64 times in a row.
    pub held_off: bool,
}

/// Whether these are one file, or none both times.
fn same_file(a: Option<usize>, b: Option<usize>) -> bool
    ensures { result ≡ same_number a b }
{
    match (a, b) {
        (None, None) => true,
        (Some(a), Some(b)) => a == b,
        _ => false,
    }
}

/// Whether another seat has the lock.
fn is_held(reply: &Reply) -> bool
    ensures { result ≡ is_held_reply reply.now }
{
    match reply {
        Reply::Held => true,
        _ => false,
    }
}

impl OpenOperation {
    ghost use Rattle.world_tables.specs.Tables.{disk_at};
    ghost use Rattle.operation_ledger.specs.Had.{IsNamesHad};
    ghost use Rattle.operation_ledger.specs.Listed.{AreListed};
    ghost use Rattle.operation_ledger.specs.Tries.{AreTries};
    ghost use Rattle.operation_ledger.specs.Operations.{Holds, IsAfter, Looks, KeepsRest, KeepsGiven, KeepsAllBut, GivesNow};

    /// The operation that begins with this request.
    pub fn begin(
        alloc: Global,
        tables: &Tables,
        request: &Request,
    ) -> Result<OpenOperation, NoMemory>
        ensures { IfOk result (λ x. (had : List (Name × ℕ)) → AreListed had (disk_at tables.now) → Holds had (disk_at tables.now) x (begun (disk_at tables.now) request.now)) }
    {
        let entry = entry_of(tables, request);
        let given = read_entry(alloc, tables, request, entry)?;
        let mut gave = Vec::new(alloc);
        gave.push(given)?;
        Ok(OpenOperation {
            request: request.copy(alloc)?,
            gave,
            entry,
            failed: false,
            tries: Vec::new(alloc),
            held_off: false,
        })
    }

    /// What its store gives now. The entry is read only where it has another file than the remembered one.
    pub fn lately(&self, alloc: Global, tables: &Tables) -> Result<Lately, NoMemory>
        ensures { IfOk result (GivesNow (disk_at tables.now) self.now) }
    {
        let file = entry_of(tables, &self.request);
        if same_file(file, self.entry) {
            return Ok(Lately::AsBefore);
        }
        Ok(Lately::Gives(read_entry(alloc, tables, &self.request, file)?))
    }

    /// Adds what its store gives now to what it gave.
    fn look(&mut self, alloc: Global, tables: &Tables) -> Result<(), NoMemory>
        ensures ok { OnOk result (Looks (disk_at tables.now) self.old self.new) }
        ensures rest { KeepsRest self.old self.new }
        ensures err { OnErr result ((self.new.gave.items ≡ self.old.gave.items) × (self.new.entry ≡ self.old.entry)) }
    {
        let file = entry_of(tables, &self.request);
        if same_file(file, self.entry) {
            return Ok(());
        }
        let given = read_entry(alloc, tables, &self.request, file)?;
        learn(&mut self.gave, given)?;
        self.entry = file;
        Ok(())
    }

    /// Whether a try for a file's lock that was found held is the 64th in a row that holds it off.
    fn is_held_off(&self, names: &NamesHad, tables: &Tables, file: usize) -> bool
        ensures { (had : List (Name × ℕ)) (row : ℕ → ℕ) → IsNamesHad names.now had → AreListed had (disk_at tables.now)
            → AreTries self.now.tries.items row → result ≡ is_last_try had (disk_at tables.now) (the_root self.now.request) row (Some file) }
    {
        tries_of(&self.tries, file) >= TRIES_BEFORE
            && is_lock_file(names, tables, root_of(&self.request), file)
    }

    /// Counts a try for the lock of a slot's file, in memory that was taken for it.
    fn count(&mut self, names: &NamesHad, tables: &Tables, who: Who, slot: u8, reply: &Reply)
        requires { vec_len self.old.tries < vec_capacity self.old.tries }
        ensures row { (row : ℕ → ℕ) → AreTries self.old.tries.items row → AreTries self.new.tries.items (row_after row (disk_at tables.now) (Did who (TryLock slot) reply.now)) }
        ensures held_off { (had : List (Name × ℕ)) (row : ℕ → ℕ) → IsNamesHad names.now had → AreListed had (disk_at tables.now)
            → AreTries self.old.tries.items row → self.new.held_off ≡ (self.old.held_off || is_64th had (disk_at tables.now) (the_root self.old.request) row (Did who (TryLock slot) reply.now)) }
        ensures rest { KeepsAllBut self.old self.new }
    {
        let Some(file) = file_in(&tables.slots, who, slot) else {
            return;
        };
        let held = is_held(reply);
        if held && self.is_held_off(names, tables, file) {
            self.held_off = true;
        }
        count_try(&mut self.tries, file, held);
    }

    /// Notes a failure or a try, in memory that was taken for it.
    fn note(&mut self, names: &NamesHad, tables: &Tables, item: &LogItem)
        requires { vec_len self.old.tries < vec_capacity self.old.tries }
        ensures row { (row : ℕ → ℕ) → AreTries self.old.tries.items row → AreTries self.new.tries.items (row_after row (disk_at tables.now) item.now) }
        ensures held_off { (had : List (Name × ℕ)) (row : ℕ → ℕ) → IsNamesHad names.now had → AreListed had (disk_at tables.now)
            → AreTries self.old.tries.items row → self.new.held_off ≡ (self.old.held_off || is_64th had (disk_at tables.now) (the_root self.old.request) row item.now) }
        ensures failed { self.new.failed ≡ (self.old.failed || the_fault item.now) }
        ensures rest { KeepsGiven self.old self.new }
    {
        match item {
            LogItem::Did {
                who,
                call: Call::TryLock { slot },
                reply,
            } => self.count(names, tables, *who, *slot, reply),
            LogItem::Failed { who: _, memory } => {
                if !*memory {
                    self.failed = true;
                }
            }
            _ => {}
        }
    }

    /// Goes on over an item of its seat, by the tables and the names as they are after it. A refusal
    /// leaves what was told.
    pub fn follow(
        &mut self,
        alloc: Global,
        names: &NamesHad,
        tables: &Tables,
        item: &LogItem,
    ) -> Result<(), NoMemory>
        ensures ok { OnOk result ((s : Summary) (o : Operation) → Holds s.had s.state.disk self.old o
            → AreListed s.had s.state.disk → IsAfter names.now tables.now s item.now → Holds (summed s item.now).had (applied s.state.disk item.now) self.new (goes_on s.had s.state.disk item.now o)) }
        ensures err { OnErr result ((had : List (Name × ℕ)) (d : Disk) (o : Operation) → Holds had d self.old o → Holds had d self.new o) }
    {
        self.tries.reserve(1)?;
        self.look(alloc, tables)?;
        self.note(names, tables, item);
        Ok(())
    }
}
