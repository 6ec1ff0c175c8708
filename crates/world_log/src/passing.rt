//! Whether an item keeps the rules, by what it does.

ghost use Rattle.std.specs.Prelude.{◌≡◌, IfOk, is_none};
ghost use Rattle.file_log.specs.Log.{seat_of};
ghost use Rattle.log_summary.specs.Summary.{Summary};
ghost use Rattle.rule_cases.specs.Cases as cases;
ghost use Rattle.world_log.specs.Ledgers.{Carries};
ghost use Rattle.world_tables.specs.Tables.{disk_at};

use crate::changing::{passes_cutting, passes_writing};
use crate::ledger::Ledger;
use crate::making::passes_making;
use cache_types::{NoMemory, Who};
use file_log::{Call, LogItem, Reply};
use world_tables::Tables;

/// Whether an item is no seat's.
fn is_of_no_seat(item: &LogItem) -> bool
    ensures { result ≡ is_none (seat_of item.now) }
{
    match item {
        LogItem::Queued {
            process: _,
            ticket: _,
            request: _,
        } => true,
        LogItem::Stop { process: _ } => true,
        LogItem::Install {
            root: _,
            name: _,
            main: _,
            index: _,
        } => true,
        LogItem::SetList { text: _ } => true,
        _ => false,
    }
}

impl Ledger {
    /// Whether a seat may make a call that was answered Done.
    fn passes_call(&self, tables: &Tables, who: Who, call: &Call) -> Result<bool, NoMemory>
        ensures { IfOk result (λ may. (s : Summary) → Carries self.now s → disk_at tables.now ≡ s.state.disk → may ≡ cases.passes_call s who call.now) }
    {
        match call {
            Call::OpenNew { slot: _, name } => Ok(passes_making(tables, who, name)),
            Call::Cut { slot, n } => Ok(passes_cutting(&self.names, tables, who, *slot, *n)),
            Call::Rename { from, to } => self.passes_renaming(tables, who, from, to),
            Call::Remove { name } => Ok(self.passes_removing(tables, who, name)),
            _ => Ok(true),
        }
    }

    /// The same of a call with a reply: another than Done changes nothing.
    fn passes_reply(
        &self,
        tables: &Tables,
        who: Who,
        call: &Call,
        reply: &Reply,
    ) -> Result<bool, NoMemory>
        ensures { IfOk result (λ may. (s : Summary) → Carries self.now s → disk_at tables.now ≡ s.state.disk → may ≡ cases.passes_reply s who call.now reply.now) }
    {
        match reply {
            Reply::Done => self.passes_call(tables, who, call),
            _ => Ok(true),
        }
    }

    /// Whether what an item changes may be changed.
    fn passes_changing(&self, tables: &Tables, item: &LogItem) -> Result<bool, NoMemory>
        ensures { IfOk result (λ may. (s : Summary) → Carries self.now s → disk_at tables.now ≡ s.state.disk → may ≡ cases.passes_changing s item.now) }
    {
        match item {
            LogItem::Did { who, call, reply } => self.passes_reply(tables, *who, call, reply),
            LogItem::Byte {
                who,
                slot,
                at,
                value,
            } => {
                let may = passes_writing(&self.names, tables, *who, *slot, *at, *value);
                Ok(may)
            }
            _ => Ok(true),
        }
    }

    /// Whether an item keeps the rules, by the tables as they are before it: it changes only what its seat
    /// may, and its answer is earned. An item of no seat does.
    pub fn passes(&self, tables: &Tables, item: &LogItem) -> Result<bool, NoMemory>
        ensures { IfOk result (λ keeps. (s : Summary) → Carries self.now s → disk_at tables.now ≡ s.state.disk → keeps ≡ cases.passes s item.now) }
    {
        if is_of_no_seat(item) {
            return Ok(true);
        }
        if !self.passes_changing(tables, item)? {
            return Ok(false);
        }
        self.operations.is_earned(tables, self.rough, item)
    }
}
