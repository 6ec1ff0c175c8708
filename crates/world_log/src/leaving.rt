//! A name is renamed or removed.

ghost use Rattle.std.specs.Prelude.{◌≡◌, List, IfOk};
ghost use Rattle.log_summary.specs.Summary.{BegunPut as ThePut};
ghost use Rattle.rule_cases.specs.Cases as cases;
ghost use Rattle.world_log.specs.Grouping.{AreGrouped};
ghost use Rattle.world_log.specs.Ledgers.{told_by};
ghost use Rattle.world_log.specs.Replacing.{may_replace};
ghost use Rattle.world_tables.specs.Tables.{disk_at};

use crate::kinds::{comes_guarded, is_entry, is_foreign, is_lasting, is_temporary, may_write};
use crate::ledger::Ledger;
use crate::looks::file_named;
use cache_types::{Name, NoMemory, Who};
use world_tables::Tables;

/// Whether a name may lose its file.
fn may_leave(tables: &Tables, who: Who, name: &Name) -> bool
    ensures { result ≡ cases.may_leave (disk_at tables.now) who name.now }
{
    !is_lasting(name) && !is_foreign(name) && (!is_temporary(name) || may_write(tables, who, name))
}

/// Whether another file may come in the place of a name that is no entry's.
fn may_come_in_place(tables: &Tables, who: Who, to: &Name) -> bool
    ensures { result ≡ may_replace (disk_at tables.now) who to.now }
{
    (!is_lasting(to) || file_named(tables, to).is_none())
        && !is_foreign(to)
        && (!comes_guarded(to) || may_write(tables, who, to))
}

impl Ledger {
    /// Whether another file may come in a name's place, an entry's only as an entry comes.
    fn comes_well(
        &self,
        tables: &Tables,
        who: Who,
        from: &Name,
        file: usize,
        to: &Name,
    ) -> Result<bool, NoMemory>
        ensures { IfOk result (λ may. (puts : List ThePut) → AreGrouped self.now.puts puts → may ≡ cases.comes_well (told_by puts self.now tables.now) who from.now file to.now) }
    {
        match to {
            Name::Entry { root, key } => self.entry_comes(tables, who, *root, *key, from, file),
            _ => Ok(may_come_in_place(tables, who, to)),
        }
    }

    /// Whether the file of one name may go to another.
    pub fn passes_renaming(
        &self,
        tables: &Tables,
        who: Who,
        from: &Name,
        to: &Name,
    ) -> Result<bool, NoMemory>
        ensures { IfOk result (λ may. (puts : List ThePut) → AreGrouped self.now.puts puts → may ≡ cases.passes_renaming (told_by puts self.now tables.now) who from.now to.now ((disk_at tables.now).names from.now)) }
    {
        let Some(file) = file_named(tables, from) else {
            return Ok(true);
        };
        if from.is(to) {
            return Ok(true);
        }
        if is_entry(from) || !may_leave(tables, who, from) {
            return Ok(false);
        }
        self.comes_well(tables, who, from, file, to)
    }

    /// Whether a name's file may go, an entry's only as an entry goes.
    fn goes_well(&self, tables: &Tables, who: Who, name: &Name) -> bool
        ensures { (puts : List ThePut) → AreGrouped self.now.puts puts → result ≡ cases.goes_well (told_by puts self.now tables.now) who name.now }
    {
        match name {
            Name::Entry { root, key } => self.entry_goes(tables, who, *root, *key),
            _ => may_leave(tables, who, name),
        }
    }

    /// Whether a name may be removed.
    pub fn passes_removing(&self, tables: &Tables, who: Who, name: &Name) -> bool
        ensures { (puts : List ThePut) → AreGrouped self.now.puts puts → result ≡ cases.passes_removing (told_by puts self.now tables.now) who name.now ((disk_at tables.now).names name.now) }
    {
        match file_named(tables, name) {
            None => true,
            Some(_) => self.goes_well(tables, who, name),
        }
    }
}
