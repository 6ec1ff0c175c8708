//! An entry's file comes or goes.

ghost use Rattle.std.specs.Prelude.{◌≡◌, List, None, Some, IfOk};
ghost use Rattle.std.specs.List.{list_all};
ghost use Rattle.file_log.specs.Disk.{bytes_in};
ghost use Rattle.log_summary.specs.Summary.{BegunPut as ThePut};
ghost use Rattle.rule_cases.specs.Cases as cases;
ghost use Rattle.world_log.specs.Grouping.{AreGrouped};
ghost use Rattle.world_log.specs.Ledgers.{keeps_at, keeps_put, told_by};
ghost use Rattle.world_tables.specs.Tables.{disk_at};

use crate::address::Address;
use crate::evictions::is_evicting;
use crate::groups::PutPlace;
use crate::kinds::folder_lock;
use crate::ledger::Ledger;
use crate::looks::{bytes_of, file_named, has_lock, reads};
use crate::puts::is_put_item;
use crate::puts_at::PutsAt;
use cache_types::{Key, Name, NoMemory, Who};
use world_tables::Tables;

/// The files that an entry has before and after an item.
#[derive(Drop)]
pub struct EntryChange {
    pub root: u32,
    pub key: Key,
    pub old: Option<usize>,
    pub new: Option<usize>,
}

impl Ledger {
    /// Whether what an entry's old file holds of an address is held by its new one, or is being evicted by
    /// the seat.
    fn keeps(&self, tables: &Tables, who: Who, entry: &EntryChange, at: &Address) -> bool
        ensures { result ≡ keeps_at self.now.evicting.items who entry.now.root entry.now.key (bytes_in (disk_at tables.now).files entry.now.old) (bytes_in (disk_at tables.now).files entry.now.new) at.now }
    {
        let was_held = at.is_in(entry.root, entry.key) && reads(tables, &at.driver, entry.old);
        !was_held || reads(tables, &at.driver, entry.new) || is_evicting(&self.evicting, who, at)
    }

    /// Whether that is so of the address of each of these.
    fn keeps_all(&self, tables: &Tables, who: Who, entry: &EntryChange, records: &[PutsAt]) -> bool
        ensures { result ≡ list_all (λ r. keeps_at self.now.evicting.items who entry.now.root entry.now.key (bytes_in (disk_at tables.now).files entry.now.old) (bytes_in (disk_at tables.now).files entry.now.new) r.at) records.now }
    {
        let mut rest = records;
        while let [first, tail @ ..] = rest {
            if !self.keeps(tables, who, entry, &first.at) {
                return false;
            }
            rest = tail;
        }
        true
    }

    /// Whether that is so of each put that began. Looks once at each address that has puts under the
    /// entry's root and key.
    fn keeps_each(&self, tables: &Tables, who: Who, entry: &EntryChange) -> bool
        ensures { (puts : List ThePut) → AreGrouped self.now.puts puts → result ≡ list_all (keeps_put self.now.evicting.items who entry.now.root entry.now.key (bytes_in (disk_at tables.now).files entry.now.old) (bytes_in (disk_at tables.now).files entry.now.new)) puts }
    {
        let place = PutPlace {
            root: entry.root,
            key: entry.key,
        };
        self.keeps_all(tables, who, entry, self.puts.under(&place))
    }

    /// Whether nothing of an entry is lost unevicted where it gets this file, or none; or a process was
    /// stopped or a call failed before.
    fn loses_nothing(
        &self,
        tables: &Tables,
        who: Who,
        root: u32,
        key: Key,
        new: Option<usize>,
    ) -> bool
        ensures { (puts : List ThePut) → AreGrouped self.now.puts puts → result ≡ cases.loses_nothing (told_by puts self.now tables.now) who root key (bytes_in (disk_at tables.now).files new) }
    {
        let old = file_named(tables, &Name::Entry { root, key });
        let entry = EntryChange {
            root,
            key,
            old,
            new,
        };
        self.rough || self.keeps_each(tables, who, &entry)
    }

    /// Whether an entry may get this file: by the holder of its folder's lock, from its temporary name, as
    /// a whole item of a blob that was put, and nothing is lost.
    pub fn entry_comes(
        &self,
        tables: &Tables,
        who: Who,
        root: u32,
        key: Key,
        from: &Name,
        file: usize,
    ) -> Result<bool, NoMemory>
        ensures { IfOk result (λ may. (puts : List ThePut) → AreGrouped self.now.puts puts → may ≡ cases.entry_comes (told_by puts self.now tables.now) who root key from.now file) }
    {
        if !from.is(&Name::Temp { root, key }) || !has_lock(tables, who, &folder_lock(root, key)) {
            return Ok(false);
        }
        let is_whole = is_put_item(self.alloc, &self.puts, root, key, bytes_of(tables, file))?;
        Ok(is_whole && self.loses_nothing(tables, who, root, key, Some(file)))
    }

    /// Whether an entry may go: by the holder of its folder's lock, and nothing is lost.
    pub fn entry_goes(&self, tables: &Tables, who: Who, root: u32, key: Key) -> bool
        ensures { (puts : List ThePut) → AreGrouped self.now.puts puts → result ≡ cases.entry_goes (told_by puts self.now tables.now) who root key }
    {
        has_lock(tables, who, &folder_lock(root, key))
            && self.loses_nothing(tables, who, root, key, None)
    }
}
