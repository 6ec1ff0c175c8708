//! Names that are locks of a root.

ghost use Rattle.std.specs.Prelude.{◌≡◌, ◌&&◌, ℕ, List};
ghost use Rattle.std.specs.List.{list_any};
ghost use Rattle.cache_types.specs.declared.name.Name.{Name};
ghost use Rattle.seat_rules.specs.Answers.{root_of as the_root};
ghost use Rattle.seat_rules.specs.Kinds.{is_lock_of as the_lock};
ghost use Rattle.seat_rules.specs.Operations.{is_file};
ghost use Rattle.log_summary.specs.Summary.{is_lock_file as the_lock_file};
ghost use Rattle.operation_ledger.specs.Had.{IsNamesHad};
ghost use Rattle.operation_ledger.specs.Listed.{AreListed};
ghost use Rattle.world_tables.specs.Tables.{disk_at};

use crate::names_had::NamesHad;
use cache_types::{Name, Request};
use world_tables::Tables;

/// The root that a request speaks of.
pub fn root_of(request: &Request) -> u32
    ensures { result ≡ the_root request.now }
{
    match request {
        Request::Get {
            store,
            driver: _,
            key: _,
            ro: _,
        } => store.root,
        Request::Put {
            store,
            driver: _,
            key: _,
            meta: _,
            blob: _,
            limit: _,
        } => store.root,
        Request::HasKey { root, key: _ } => *root,
        Request::PutKey { root, key: _ } => *root,
        Request::Keys { store, driver: _ } => store.root,
        Request::Verify { store } => store.root,
        Request::Trim { store, to: _ } => store.root,
    }
}

/// Whether operations of the root wait for the name's lock.
fn is_lock_of(root: u32, name: &Name) -> bool
    ensures { result ≡ the_lock root name.now }
{
    match name {
        Name::FolderLock {
            root: other,
            byte: _,
        } => *other == root,
        Name::KeyIndex { root: other } => *other == root,
        Name::Db { root: other } => *other == root,
        Name::Foz { root: other } => *other == root,
        _ => false,
    }
}

/// Whether the name has the file.
fn has_file(tables: &Tables, name: &Name, file: usize) -> bool
    ensures { result ≡ is_file file ((disk_at tables.now).names name.now) }
{
    match tables.names.number_of(name) {
        None => false,
        Some(other) => other == file,
    }
}

/// Whether one of the names is a lock of the root and has the file.
fn has_lock(names: &[Name], tables: &Tables, root: u32, file: usize) -> bool
    ensures { result ≡ list_any (λ name. the_lock root name && is_file file ((disk_at tables.now).names name)) names.now }
{
    let mut rest = names;
    while let [first, tail @ ..] = rest {
        if is_lock_of(root, first) && has_file(tables, first, file) {
            return true;
        }
        rest = tail;
    }
    false
}

/// Whether a name that is a lock of the root has the file.
pub fn is_lock_file(names: &NamesHad, tables: &Tables, root: u32, file: usize) -> bool
    ensures { (had : List (Name × ℕ)) → IsNamesHad names.now had → AreListed had (disk_at tables.now) → result ≡ the_lock_file had (disk_at tables.now) root file }
{
    has_lock(names.names_of(file), tables, root, file)
}
