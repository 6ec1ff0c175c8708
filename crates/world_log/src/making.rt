//! A name gets a new file.

ghost use Rattle.std.specs.Prelude.{◌≡◌};
ghost use Rattle.rule_cases.specs.Cases as cases;
ghost use Rattle.world_tables.specs.Tables.{disk_at};

use crate::kinds::{comes_guarded, is_entry, is_foreign, may_write};
use crate::looks::file_named;
use cache_types::{Name, Who};
use world_tables::Tables;

/// Whether a seat may give a name a new file: no entry comes so, no name of a read-only database, and
/// one that comes under a lock by its holder alone.
fn may_make(tables: &Tables, who: Who, name: &Name) -> bool
    ensures { result ≡ cases.may_make (disk_at tables.now) who name.now }
{
    !is_entry(name) && !is_foreign(name) && (!comes_guarded(name) || may_write(tables, who, name))
}

/// Whether a seat may open a name, which gets a new file where it has none.
pub fn passes_making(tables: &Tables, who: Who, name: &Name) -> bool
    ensures { result ≡ cases.passes_making (disk_at tables.now) who name.now ((disk_at tables.now).names name.now) }
{
    match file_named(tables, name) {
        None => may_make(tables, who, name),
        Some(_) => true,
    }
}
