ghost use Rattle.std.specs.Prelude.{◌≡◌, ◌≤◌, ◌+◌, ◌&&◌, ◌∷◌, ℕ, None, IsSome, OnOk, OnErr, nat_eq, if◌then◌else◌};
ghost use Rattle.cache_types.specs.Names.{same_name};
ghost use Rattle.cache_types.specs.Seats.{same_seat};
ghost use Rattle.cache_types.specs.declared.name.Name.{Name};
ghost use Rattle.cache_types.specs.declared.seat.Who.{Who};
ghost use Rattle.world_tables.specs.Find.{number_of as the_number, file_in as the_file};
ghost use Rattle.world_tables.specs.Room.{closes};

use crate::parts::{NamedFile, OpenSlot};
use cache_types::{Name, NoMemory, Who};

/// The number of the file that a name has in a list.
pub fn find_name(names: &[NamedFile], name: &Name) -> Option<usize>
    ensures { result ≡ the_number names.now name.now }
{
    let mut rest = names;
    while let [first, tail @ ..] = rest {
        if first.name.is(name) {
            return Some(first.file);
        }
        rest = tail;
    }
    None
}

/// The number of the file in a slot.
pub fn file_in(slots: &[OpenSlot], who: Who, at: u8) -> Option<usize>
    ensures { result ≡ the_file slots.now who at }
{
    let mut rest = slots;
    while let [first, tail @ ..] = rest {
        if who.is(first.who) && first.slot == at {
            return Some(first.file);
        }
        rest = tail;
    }
    None
}

/// Adds a name with its file, before all others.
pub fn add_name(names: &mut Vec<NamedFile>, named: NamedFile) -> Result<(), NoMemory>
    ensures ok { OnOk result (names.new.items ≡ named ∷ names.old.items) }
    ensures err { OnErr result (names.new.items ≡ names.old.items) }
{
    names.insert(0, named)?;
    Ok(())
}

/// Adds two names with their files, the second before the first. It adds both or neither.
pub fn add_both(
    names: &mut Vec<NamedFile>,
    first: NamedFile,
    second: NamedFile,
) -> Result<(), NoMemory>
    ensures ok { OnOk result (names.new.items ≡ second ∷ first ∷ names.old.items) }
    ensures err { OnErr result (names.new.items ≡ names.old.items) }
{
    names.reserve(2)?;
    // There is a place for each, so neither can fail.
    let _first = names.insert(0, first);
    let _second = names.insert(0, second);
    Ok(())
}

/// Removes a name from a list.
pub fn forget(names: &mut Vec<NamedFile>, name: &Name)
    ensures { (n : Name) → the_number names.new.items n ≡ (if same_name name.now n then None else the_number names.old.items n) }
{
    names.retain(|named| !named.name.is(name));
}

/// Empties a slot.
pub fn empty(slots: &mut Vec<OpenSlot>, who: Who, at: u8)
    ensures slots { (w : Who) (a : ℕ) → the_file slots.new.items w a ≡ (if same_seat w who && nat_eq at a then None else the_file slots.old.items w a) }
    ensures fewer { IsSome (the_file slots.old.items who at) → closes slots.new.items + 1 ≤ closes slots.old.items }
    ensures no_more { closes slots.new.items ≤ closes slots.old.items }
{
    slots.retain(|open| !(open.who.is(who) && open.slot == at));
}

/// Empties the slots of a process.
pub fn empty_all(slots: &mut Vec<OpenSlot>, process: u32)
    ensures slots { (w : Who) (a : ℕ) → the_file slots.new.items w a ≡ (if nat_eq w.process process then None else the_file slots.old.items w a) }
    ensures no_more { closes slots.new.items ≤ closes slots.old.items }
{
    slots.retain(|open| open.who.process != process);
}
