ghost use Rattle.std.specs.Prelude.{◌≡◌, ◌++◌, OnOk};
ghost use Rattle.file_log.specs.Log.{is_rough as the_rough};
ghost use Rattle.log_summary.specs.Summary.{Summary, nothing, summed, gained};
ghost use Rattle.operation_ledger.specs.Had.{IsNamesHad};
ghost use Rattle.operation_ledger.specs.Operations.{IsAfter};
ghost use Rattle.world_log.specs.Ledgers.{CarriesRest, Carries};
ghost use Rattle.world_tables.specs.Tables.{disk_at};

use crate::evictions::{OpenEvict, follow_evict};
use crate::groups::PutGroups;
use crate::puts::follow_put;
use cache_types::NoMemory;
use file_log::LogItem;
use operation_ledger::{NamesHad, Operations};
use std::alloc::Global;
use world_tables::Tables;

/// What the rules ask of a log's past, carried along it. The disk stands in the world's tables beside it.
#[derive(Debug)]
pub struct Ledger {
    pub alloc: Global,
    /// The names that files have had.
    pub names: NamesHad,
    /// The operations that seats are in.
    pub operations: Operations,
    /// The puts that began, by root and key.
    pub puts: PutGroups,
    /// The open Evicts, the last first.
    pub evicting: Vec<OpenEvict>,
    /// Whether a process was stopped or a call failed.
    pub rough: bool,
}

impl Drop for Ledger {
    fn drop(self) {
        let Ledger {
            alloc: _,
            names: _names,
            operations: _operations,
            puts: _puts,
            evicting: _evicting,
            rough: _,
        } = self;
    }
}

/// Whether an item is a stop of a process, or a call that failed or was refused memory.
fn is_rough(item: &LogItem) -> bool
    ensures { result ≡ the_rough item.now }
{
    match item {
        LogItem::Stop { process: _ } => true,
        LogItem::Failed { who: _, memory: _ } => true,
        _ => false,
    }
}

impl Ledger {
    /// Before any item. Takes no memory.
    pub fn new(alloc: Global) -> Ledger
        ensures { Carries result nothing }
    {
        Ledger {
            alloc,
            names: NamesHad::new(alloc),
            operations: Operations::new(alloc),
            puts: PutGroups::new(alloc),
            evicting: Vec::new(alloc),
            rough: false,
        }
    }

    /// Goes on over an item, of which the names are told already, by the tables as they are after it.
    pub fn follow(&mut self, tables: &Tables, item: &LogItem) -> Result<(), NoMemory>
        ensures { OnOk result ((s : Summary) → CarriesRest self.old s → IsAfter self.old.names tables.now s item.now → Carries self.new (summed s item.now)) }
    {
        self.operations.follow(&self.names, tables, item)?;
        follow_put(self.alloc, &mut self.puts, item)?;
        follow_evict(&mut self.evicting, item)?;
        self.rough = self.rough || is_rough(item);
        Ok(())
    }

    /// Goes on over the names that an item gives to files, by the tables as they are before it.
    pub fn follow_names(&mut self, tables: &Tables, item: &LogItem) -> Result<(), NoMemory>
        ensures names { OnOk result ((s : Summary) → Carries self.old s → IsNamesHad self.new.names (s.had ++ gained (disk_at tables.now) item.now)) }
        ensures rest { OnOk result ((s : Summary) → CarriesRest self.old s → CarriesRest self.new s) }
    {
        self.names.follow(tables, item)
    }
}
