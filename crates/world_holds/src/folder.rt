ghost use Rattle.std.specs.Prelude.{IfOk};
ghost use Rattle.file_log.specs.State.{disk_of};
ghost use Rattle.folder_rules.specs.Holds.{FolderHolds};
ghost use Rattle.item_frame.specs.Item.{Reads};
ghost use Rattle.world_holds.specs.Given.{IsGiven};

use cache_types::{Bytes, Driver, Key, Name, NoMemory};
use file_model::World;
use item_frame::{ItemRefusal, read_blob};
use std::alloc::Global;
use world_tables::bytes_in;

/// The blob that the bytes of a file read as for a driver, if they do.
fn blob_in(alloc: Global, driver: &Driver, bytes: &[u8]) -> Result<Option<Bytes>, NoMemory>
    ensures { IfOk result (IsGiven (Reads driver.now bytes.now)) }
{
    match read_blob(alloc, driver, bytes) {
        Ok(blob) => Ok(Some(blob)),
        Err(ItemRefusal::NoMemory) => Err(NoMemory),
        Err(_) => Ok(None),
    }
}

/// The blob that the folder store of a root holds for a driver and a key on the world's disk as it is now, in
/// memory of its own; `None` exactly where it holds none.
pub fn folder_gives(
    world: &World,
    root: u32,
    driver: &Driver,
    key: &Key,
) -> Result<Option<Bytes>, NoMemory>
    ensures { IfOk result (IsGiven (FolderHolds (disk_of world.now.past) root driver.now key.now)) }
{
    let tables = world.tables();
    let entry = Name::Entry { root, key: *key };
    let file = tables.names.number_of(&entry);
    if file.is_none() {
        return Ok(None);
    }
    blob_in(world.alloc(), driver, bytes_in(&tables.files, file))
}
