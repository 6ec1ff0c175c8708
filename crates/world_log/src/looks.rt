//! What stands on a disk: under a name, in a slot, in a file, and whose a lock is.

ghost use Rattle.std.specs.Prelude.{◌≡◌, Some, is_some};
ghost use Rattle.file_log.specs.Disk.{bytes_in};
ghost use Rattle.seat_rules.specs.Changes as changes;
ghost use Rattle.seat_rules.specs.Operations.{is_file};
ghost use Rattle.log_summary.specs.Summary.{read_for};
ghost use Rattle.world_tables.specs.Tables.{disk_at};

use cache_types::{Driver, Name, Who};
use item_frame::check_item;
use world_tables::{Tables, file_in};

/// The number of the file that a name has.
pub fn file_named(tables: &Tables, name: &Name) -> Option<usize>
    ensures { result ≡ (disk_at tables.now).names name.now }
{
    tables.names.number_of(name)
}

/// Whether a name has the file with this number.
pub fn has_file(tables: &Tables, name: &Name, file: usize) -> bool
    ensures { result ≡ is_file file ((disk_at tables.now).names name.now) }
{
    match file_named(tables, name) {
        None => false,
        Some(other) => other == file,
    }
}

/// The number of the file in a slot of a seat.
pub fn file_open(tables: &Tables, who: Who, slot: u8) -> Option<usize>
    ensures { result ≡ (disk_at tables.now).slots who slot }
{
    file_in(&tables.slots, who, slot)
}

/// The bytes of the file with this number, none where there is no such file.
pub fn bytes_of(tables: &Tables, file: usize) -> &[u8]
    ensures { result.now ≡ (disk_at tables.now).files file }
{
    if file < tables.files.len() {
        tables.files[file].as_slice()
    } else {
        &[]
    }
}

/// Whether a file, if there is one, is an item of a driver.
pub fn reads(tables: &Tables, driver: &Driver, file: Option<usize>) -> bool
    ensures { result ≡ is_some (read_for driver.now (bytes_in (disk_at tables.now).files file)) }
{
    match file {
        None => false,
        Some(file) => is_item(driver, bytes_of(tables, file)),
    }
}

/// Whether bytes are an item of a driver.
fn is_item(driver: &Driver, bytes: &[u8]) -> bool
    ensures { result ≡ is_some (read_for driver.now (Some bytes.now)) }
{
    check_item(driver, bytes).is_ok()
}

/// Whether the lock of a name's file is the seat's.
pub fn has_lock(tables: &Tables, who: Who, name: &Name) -> bool
    ensures { result ≡ changes.has_lock (disk_at tables.now) who name.now }
{
    let Some(file) = file_named(tables, name) else {
        return false;
    };
    match tables.locks.holder_of(file as u64) {
        None => false,
        Some(holder) => holder.who.is(who),
    }
}
