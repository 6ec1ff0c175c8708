//! Kinds of names, and the lock that guards each.

ghost use Rattle.std.specs.Prelude.{◌≡◌};
ghost use Rattle.seat_rules.specs.Changes as changes;
ghost use Rattle.seat_rules.specs.Kinds as kinds;
ghost use Rattle.world_tables.specs.Tables.{disk_at};

use crate::looks::has_lock;
use cache_types::{Key, Name, Who};
use world_tables::Tables;

/// The name whose lock entries of a key's folder come and go under.
pub fn folder_lock(root: u32, key: Key) -> Name
    ensures { result ≡ Name.FolderLock root (kinds.folder_byte key) }
{
    Name::FolderLock {
        root,
        byte: key.bytes[0],
    }
}

/// Whether it is the name of an entry.
pub fn is_entry(name: &Name) -> bool
    ensures { result ≡ kinds.is_entry name.now }
{
    match name {
        Name::Entry { root: _, key: _ } => true,
        _ => false,
    }
}

/// Whether it is a temporary name, which also goes only under its lock.
pub fn is_temporary(name: &Name) -> bool
    ensures { result ≡ kinds.is_temporary name.now }
{
    match name {
        Name::Temp { root: _, key: _ } => true,
        _ => false,
    }
}

/// Whether it comes only under its lock.
pub fn comes_guarded(name: &Name) -> bool
    ensures { result ≡ kinds.comes_guarded name.now }
{
    match name {
        Name::Idx { root: _ } => true,
        Name::FozIdx { root: _ } => true,
        _ => is_temporary(name),
    }
}

/// Whether it keeps its file, once it has one.
pub fn is_lasting(name: &Name) -> bool
    ensures { result ≡ kinds.is_lasting name.now }
{
    match name {
        Name::FolderLock { root: _, byte: _ } => true,
        Name::KeyIndex { root: _ } => true,
        Name::Db { root: _ } => true,
        Name::Idx { root: _ } => true,
        Name::Foz { root: _ } => true,
        Name::FozIdx { root: _ } => true,
        _ => false,
    }
}

/// Whether no seat gives it or takes it away.
pub fn is_foreign(name: &Name) -> bool
    ensures { result ≡ kinds.is_foreign name.now }
{
    match name {
        Name::Ro { root: _, name: _ } => true,
        Name::RoIdx { root: _, name: _ } => true,
        Name::List => true,
        _ => false,
    }
}

/// Whether its file is never written.
pub fn is_unwritten(name: &Name) -> bool
    ensures { result ≡ kinds.is_unwritten name.now }
{
    match name {
        Name::FolderLock { root: _, byte: _ } => true,
        _ => is_foreign(name),
    }
}

/// The name whose lock guards the bytes of a name's file, if there is one.
fn guard_of(name: &Name) -> Option<Name>
    ensures { result ≡ kinds.guard_of name.now }
{
    match name {
        Name::Db { root } => Some(Name::Db { root: *root }),
        Name::Idx { root } => Some(Name::Db { root: *root }),
        Name::Foz { root } => Some(Name::Foz { root: *root }),
        Name::FozIdx { root } => Some(Name::Foz { root: *root }),
        Name::KeyIndex { root } => Some(Name::KeyIndex { root: *root }),
        Name::Temp { root, key } => Some(folder_lock(*root, *key)),
        _ => None,
    }
}

/// Whether the seat has the lock that guards a name's file, if one does.
pub fn may_write(tables: &Tables, who: Who, name: &Name) -> bool
    ensures { result ≡ changes.may_write (disk_at tables.now) who name.now }
{
    match guard_of(name) {
        None => true,
        Some(guard) => has_lock(tables, who, &guard),
    }
}
