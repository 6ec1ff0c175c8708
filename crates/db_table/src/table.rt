ghost use Rattle.std.specs.Prelude.{◌≡◌, ◌++◌, ◌∷◌, [], length, map, IfOk, OnOk, OnErr, if◌then◌else◌};
ghost use Rattle.db_table.specs.Tables.{places_of};

use cache_types::NoMemory;
use db_format::IdxRow;
use std::alloc::Global;
use std::marker::Model;

/// What was learnt of the rows of an index: the identity of its head, and the hash of each row that was scanned, in their
/// order. A row's number, from 0, is its place.
///
/// It says nothing of whether a row is true: two keys may have one hash, so a row is read again before it is relied on.
#[derive(Debug)]
pub struct Table {
    identity: u64,
    hashes: Vec<u64>,
}

impl Drop for Table {
    fn drop(self) {
        let Table {
            identity: _identity,
            hashes: _hashes,
        } = self;
    }
}

impl Model for Table {
    ghost use Rattle.db_table.specs.Tables.{Scanned};

    ghost Value = { Scanned };

    ghost view = { λ t. record { identity = t.identity; hashes = t.hashes.items } };
}

impl Table {
    /// A table of no rows, with the identity 0, which no head has. It takes no memory.
    pub fn new(alloc: Global) -> Table
        ensures { result ≡ record { identity = 0; hashes = [] } }
    {
        Table {
            identity: 0,
            hashes: Vec::new(alloc),
        }
    }

    /// The identity of the head that stood in front of the rows. It takes no memory.
    pub fn identity(&self) -> u64
        ensures { result ≡ self.now.identity }
    {
        self.identity
    }

    /// How many rows were scanned. It takes no memory.
    pub fn scanned(&self) -> u64
        ensures { result ≡ length self.now.hashes }
    {
        self.hashes.len() as u64
    }

    /// Forgets all rows; those that are scanned from here on stand behind a head of this identity. It takes no memory.
    pub fn forget(&mut self, identity: u64)
        ensures { self.new ≡ record { identity = identity; hashes = [] } }
    {
        self.identity = identity;
        self.hashes.clear();
    }

    /// Adds rows behind those that were scanned. A refusal changes nothing.
    pub fn extend(&mut self, alloc: Global, rows: &[IdxRow]) -> Result<(), NoMemory>
        ensures ok { OnOk result (self.new ≡ record { identity = self.old.identity; hashes = self.old.hashes ++ map (λ row. row.hash) rows.now }) }
        ensures err { OnErr result (self.new ≡ self.old) }
    {
        let hashes: Vec<u64> = rows.iter().map(|row| row.hash).collect(alloc)?;
        self.hashes.extend_from_slice(&hashes)?;
        Ok(())
    }

    /// The places of all scanned rows of a hash, ascending. The list is searched once, from the front; memory is taken for
    /// what is found alone.
    pub fn places(&self, alloc: Global, hash: u64) -> Result<Vec<u64>, NoMemory>
        ensures { IfOk result (λ places. places.items ≡ places_of self.now.hashes hash) }
    {
        let mut places = Vec::new(alloc);
        let mut rest = self.hashes.as_slice();
        let mut place = 0;
        while let Some((first, tail)) = rest.split_first() {
            add_where(*first == hash, &mut places, place)?;
            place += 1;
            rest = tail;
        }
        Ok(places)
    }
}

/// Adds a place where it is one.
fn add_where(is_one: bool, places: &mut Vec<u64>, place: u64) -> Result<(), NoMemory>
    ensures { OnOk result (places.new.items ≡ (if is_one then places.old.items ++ place ∷ [] else places.old.items)) }
{
    if is_one {
        places.push(place)?;
    }
    Ok(())
}
