//! The puts that began, by the root and the key that they are under.

ghost use Rattle.std.specs.Prelude.{◌≡◌, ◌∷◌, [], position, OnOk, OnErr};
ghost use Rattle.rule_checks.specs.Tests.{same_address};
ghost use Rattle.world_log.specs.Grouping.{put_under, records_under, AreGrouped, Gains, GainsThere};

use crate::address::Address;
use crate::puts_at::PutsAt;
use cache_types::{Bytes, Key, NoMemory};
use std::alloc::Global;
use std::collections::HashMap;

/// What puts are looked up by: their root and their key.
#[derive(Clone, Copy, Debug, PartialEq, Eq, Hash)]
pub struct PutPlace {
    pub root: u32,
    pub key: Key,
}

/// The puts that began, by root and key, and there by their addresses.
#[derive(Debug, Drop)]
pub struct PutGroups {
    pub by_place: HashMap<PutPlace, Vec<PutsAt>>,
}

/// Where the record of an address stands among these.
fn place_of(records: &[PutsAt], at: &Address) -> Option<usize>
    ensures { result ≡ position (λ r. same_address r.at at.now) records.now }
{
    records.iter().position(|record| record.at.is(at))
}

/// Adds a put to the record of its address, which is made where it isn't there. A refusal adds
/// none.
fn add_to(
    alloc: Global,
    records: &mut Vec<PutsAt>,
    at: Address,
    blob: Bytes,
) -> Result<(), NoMemory>
    ensures ok { OnOk result (GainsThere records.old.items records.new.items (put_under at blob ∷ [])) }
    ensures err { OnErr result (GainsThere records.old.items records.new.items []) }
{
    match place_of(records, &at) {
        Some(place) => records[place].push(blob),
        None => {
            records.push(PutsAt::new(alloc, at, blob))?;
            Ok(())
        }
    }
}

impl PutGroups {
    /// None. Takes no memory.
    pub fn new(alloc: Global) -> PutGroups
        ensures { AreGrouped result [] }
    {
        PutGroups {
            by_place: HashMap::new(alloc),
        }
    }

    /// The puts under a root and a key.
    pub fn under(&self, place: &PutPlace) -> &[PutsAt]
        ensures { result.now ≡ records_under place.now.root place.now.key self.now }
    {
        match self.by_place.get(place) {
            None => &[],
            Some(records) => records.as_slice(),
        }
    }

    /// Adds a put. A refusal adds none.
    pub fn add(&mut self, alloc: Global, at: Address, blob: Bytes) -> Result<(), NoMemory>
        ensures ok { OnOk result (Gains self.old self.new (put_under at blob ∷ [])) }
        ensures err { OnErr result (Gains self.old self.new []) }
    {
        let place = PutPlace {
            root: at.store.root,
            key: at.key,
        };
        let records = self.by_place.entry(place)?.or_insert(Vec::new(alloc));
        add_to(alloc, records, at, blob)
    }
}
