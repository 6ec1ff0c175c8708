ghost use Rattle.std.specs.Prelude.{◌≡◌, ◌↔◌, IfOk, IsSome, get_or};
ghost use Rattle.std.specs.HashMap.{keys as keys_of_map};
ghost use Rattle.std.specs.List.{Contains};
ghost use Rattle.cache_types.specs.declared.key.Key.{Key};
ghost use Rattle.cache_types.specs.declared.name.Name.TheVariants.{Entry};
ghost use Rattle.file_log.specs.Legal.{AreAscending};
ghost use Rattle.world_tables.specs.Find.{number_in};
ghost use Rattle.world_tables.specs.Listing.{key_in as the_key, keys_in as the_keys};

use crate::names::{KeyPlace, Names};
use cache_types::{Key, KeyList, NoMemory};
use std::alloc::Global;

/// The keys of all entries in a folder of a root, ascending, each once.
pub fn listing(alloc: Global, names: &Names, root: u32, byte: u8) -> Result<KeyList, NoMemory>
    ensures ascending { IfOk result AreAscending }
    ensures exact { IfOk result (λ keys. (key : Key) → Contains keys key ↔ (IsSome (number_in names.now (Entry root key)) × (get_or key.bytes 0 0 ≡ byte))) }
{
    let mut keys = keys_in(alloc, names, root, byte)?;
    keys.sort_unstable();
    // Each key stands once in the map; this shows it of the list.
    keys.dedup();
    Ok(KeyList::from_vec(keys))
}

/// The key of each entry in a folder of a root.
fn keys_in(alloc: Global, names: &Names, root: u32, byte: u8) -> Result<Vec<Key>, NoMemory>
    ensures { IfOk result (λ keys. keys.items ≡ the_keys root byte (keys_of_map names.now.entries)) }
{
    let keys = names
        .entries
        .keys()
        .filter_map(|place| key_in(place, root, byte))
        .collect(alloc)?;
    Ok(keys)
}

/// The key of an entry, where it is in this folder.
fn key_in(place: &KeyPlace, root: u32, byte: u8) -> Option<Key>
    ensures { result ≡ the_key root byte place.now }
{
    if place.root == root && place.key.bytes[0] == byte {
        Some(place.key)
    } else {
        None
    }
}
