//! What the tables of a disk have under a file's number.

ghost use Rattle.std.specs.Prelude.{◌≡◌};
ghost use Rattle.world_tables.specs.Tables.{disk_at};

use world_tables::Tables;

/// The bytes of a file, none where it isn't there.
pub fn bytes_of(tables: &Tables, file: usize) -> &[u8]
    ensures { result.now ≡ (disk_at tables.now).files file }
{
    if file < tables.files.len() {
        tables.files[file].as_slice()
    } else {
        &[]
    }
}
