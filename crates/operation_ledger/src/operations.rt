ghost use Rattle.std.specs.Prelude.{◌≡◌, IfOk, OnOk, OnErr, Some, is_none};
ghost use Rattle.file_log.specs.declared.item.LogItem.TheVariants.{Begin};
ghost use Rattle.file_log.specs.Log.{seat_of as the_seat};
ghost use Rattle.log_summary.specs.Summary.{Summary, nothing, summed};
ghost use Rattle.rule_checks.specs.Tests.{ends_well as end_in, evicts_well as may_evict_in, is_earned as earned};

use crate::earned::{ends_well, evicts_well};
use crate::names_had::NamesHad;
use crate::operation::OpenOperation;
use cache_types::{Answer, NoMemory, Request, Who};
use file_log::LogItem;
use std::alloc::Global;
use std::collections::HashMap;
use world_tables::Tables;

/// The operations that seats are in.
#[derive(Debug, Drop)]
pub struct Operations {
    alloc: Global,
    /// Each by its seat, so that an item costs the same however many seats were stopped in theirs.
    held: HashMap<Who, OpenOperation>,
}

/// The seat whose item it is, if it is a seat's.
fn seat_of(item: &LogItem) -> Option<Who>
    ensures { result ≡ the_seat item.now }
{
    match item {
        LogItem::Taken { who, ticket: _ } => Some(*who),
        LogItem::Begin { who, request: _ } => Some(*who),
        LogItem::Did {
            who,
            call: _,
            reply: _,
        } => Some(*who),
        LogItem::Byte {
            who,
            slot: _,
            at: _,
            value: _,
        } => Some(*who),
        LogItem::Failed { who, memory: _ } => Some(*who),
        LogItem::Evict {
            who,
            store: _,
            driver: _,
            key: _,
        } => Some(*who),
        LogItem::End { who, answer: _ } => Some(*who),
        _ => None,
    }
}

impl Operations {
    ghost use Rattle.world_tables.specs.Tables.{disk_at};
    ghost use Rattle.operation_ledger.specs.Operations.{AreOperations, IsAfter, GoesOn};

    /// Before any item no seat is in an operation. Takes no memory.
    pub fn new(alloc: Global) -> Operations
        ensures { AreOperations result nothing }
    {
        Operations {
            alloc,
            held: HashMap::new(alloc),
        }
    }

    /// Whether a seat is in no operation.
    fn is_outside(&self, who: Who) -> bool
        ensures { (s : Summary) → AreOperations self.now s → result ≡ is_none (s.inside who) }
    {
        !self.held.contains_key(&who)
    }

    /// Whether a seat is in an operation that may evict.
    fn evicts_well(&self, who: Who) -> bool
        ensures { (s : Summary) → AreOperations self.now s → result ≡ may_evict_in (s.inside who) }
    {
        match self.held.get(&who) {
            None => false,
            Some(operation) => evicts_well(operation),
        }
    }

    /// Whether a seat is in an operation that the answer ends well.
    fn ends_well(
        &self,
        tables: &Tables,
        rough: bool,
        who: Who,
        answer: &Answer,
    ) -> Result<bool, NoMemory>
        ensures { IfOk result (λ told. (s : Summary) → AreOperations self.now s → disk_at tables.now ≡ s.state.disk → told ≡ end_in rough s.state.disk (s.inside who) answer.now) }
    {
        match self.held.get(&who) {
            None => Ok(false),
            Some(operation) => ends_well(self.alloc, tables, rough, operation, answer),
        }
    }

    /// Whether what an item says is earned, by the tables as they are before it. `rough` says whether a
    /// process was stopped or a call failed before. An entry is read only for an End, and only where
    /// another file has its name since its seat's last item.
    pub fn is_earned(&self, tables: &Tables, rough: bool, item: &LogItem) -> Result<bool, NoMemory>
        ensures { IfOk result (λ told. (s : Summary) → AreOperations self.now s → disk_at tables.now ≡ s.state.disk → rough ≡ s.rough → told ≡ earned s item.now) }
    {
        match item {
            LogItem::Begin { who, request: _ } => Ok(self.is_outside(*who)),
            LogItem::Evict {
                who,
                store: _,
                driver: _,
                key: _,
            } => Ok(self.evicts_well(*who)),
            LogItem::End { who, answer } => self.ends_well(tables, rough, *who, answer),
            _ => Ok(true),
        }
    }

    /// An operation of a seat begins with a request.
    fn begin(&mut self, tables: &Tables, who: Who, request: &Request) -> Result<(), NoMemory>
        ensures ok { OnOk result ((s : Summary) → AreOperations self.old s → disk_at tables.now ≡ s.state.disk → AreOperations self.new (summed s (Begin who request.now))) }
        ensures err { OnErr result ((s : Summary) → AreOperations self.old s → AreOperations self.new s) }
    {
        let operation = OpenOperation::begin(self.alloc, tables, request)?;
        self.held.insert(who, operation)?;
        Ok(())
    }

    /// The operation of a seat goes on over an item of it, if the seat is in one.
    fn go_on(
        &mut self,
        names: &NamesHad,
        tables: &Tables,
        who: Who,
        item: &LogItem,
    ) -> Result<(), NoMemory>
        ensures ok { OnOk result ((s : Summary) → AreOperations self.old s → the_seat item.now ≡ Some who
            → IsAfter names.now tables.now s item.now → GoesOn who self.old self.new s item.now) }
        ensures err { OnErr result ((s : Summary) → AreOperations self.old s → AreOperations self.new s) }
    {
        match self.held.get_mut(&who) {
            None => Ok(()),
            Some(operation) => operation.follow(self.alloc, names, tables, item),
        }
    }

    /// Goes on over an item whose entries kept their bytes, by the tables and the names as they are after
    /// it. A refusal leaves what was told.
    pub fn follow(
        &mut self,
        names: &NamesHad,
        tables: &Tables,
        item: &LogItem,
    ) -> Result<(), NoMemory>
        ensures ok { OnOk result ((s : Summary) → AreOperations self.old s → IsAfter names.now tables.now s item.now → AreOperations self.new (summed s item.now)) }
        ensures err { OnErr result ((s : Summary) → AreOperations self.old s → AreOperations self.new s) }
    {
        match item {
            LogItem::Begin { who, request } => self.begin(tables, *who, request),
            LogItem::End { who, answer: _ } => {
                self.held.remove(who);
                Ok(())
            }
            _ => match seat_of(item) {
                None => Ok(()),
                Some(who) => self.go_on(names, tables, who, item),
            },
        }
    }
}
