ghost use Rattle.std.specs.Prelude.{◌≡◌, ◌≤◌, ◌+◌, OnOk, OnErr};
ghost use Rattle.cache_types.specs.declared.name.Name.TheVariants.{Ro, RoIdx};
ghost use Rattle.file_log.specs.Disk.{created, listed};
ghost use Rattle.file_log.specs.Effect.{after_call};
ghost use Rattle.world_tables.specs.Room.{closes, closes_by as the_closes};
ghost use Rattle.world_tables.specs.Tables.{disk_at};

use crate::book::Book;
use crate::tables::Tables;
use cache_types::{Bytes, NoMemory, Text, Who};
use file_log::{Call, Reply};
use std::alloc::Global;

/// Does what an answered call does, and takes the memory for its item and for the Close of what it
/// opened. It does both or neither.
pub fn answer_in_room(
    book: &mut Book,
    tables: &mut Tables,
    alloc: Global,
    who: Who,
    call: &Call,
    reply: &Reply,
) -> Result<(), NoMemory>
    ensures ok { OnOk result (disk_at tables.new ≡ after_call (disk_at tables.old) who call.now reply.now) }
    ensures room { OnOk result (book.new ≡ record book.old { room = book.old.room + (1 + the_closes call.now reply.now) }) }
    ensures err { OnErr result ((disk_at tables.new ≡ disk_at tables.old) × (book.new ≡ book.old)) }
    ensures closes { closes tables.new.slots.items ≤ closes tables.old.slots.items + the_closes call.now reply.now }
    ensures no_more { OnErr result (closes tables.new.slots.items ≤ closes tables.old.slots.items) }
{
    let more = 1 + closes_by(call, reply);
    book.make_room(more)?;
    match tables.answer(alloc, who, call, reply) {
        Ok(()) => Ok(()),
        Err(e) => {
            book.give_room(more);
            Err(e)
        }
    }
}

/// Brings a read-only database, and takes the memory for its item. It does both or neither.
pub fn install_in_room(
    book: &mut Book,
    tables: &mut Tables,
    alloc: Global,
    root: u32,
    name: &Text,
    main: &Bytes,
    index: &Bytes,
) -> Result<(), NoMemory>
    ensures ok { OnOk result (disk_at tables.new ≡ created (created (disk_at tables.old) (Ro root name.now) main.now) (RoIdx root name.now) index.now) }
    ensures room { OnOk result (book.new ≡ record book.old { room = book.old.room + 1 }) }
    ensures err { OnErr result ((disk_at tables.new ≡ disk_at tables.old) × (book.new ≡ book.old)) }
    ensures slots { tables.new.slots ≡ tables.old.slots }
{
    book.make_room(1)?;
    match tables.install(alloc, root, name, main, index) {
        Ok(()) => Ok(()),
        Err(e) => {
            book.give_room(1);
            Err(e)
        }
    }
}

/// Sets the list of read-only databases, and takes the memory for its item. It does both or neither.
pub fn list_in_room(
    book: &mut Book,
    tables: &mut Tables,
    alloc: Global,
    text: &Option<Bytes>,
) -> Result<(), NoMemory>
    ensures ok { OnOk result (disk_at tables.new ≡ listed (disk_at tables.old) text.now) }
    ensures room { OnOk result (book.new ≡ record book.old { room = book.old.room + 1 }) }
    ensures err { OnErr result ((disk_at tables.new ≡ disk_at tables.old) × (book.new ≡ book.old)) }
    ensures slots { tables.new.slots ≡ tables.old.slots }
{
    book.make_room(1)?;
    match tables.set_list(alloc, text) {
        Ok(()) => Ok(()),
        Err(e) => {
            book.give_room(1);
            Err(e)
        }
    }
}

/// How many Closes an answered call has to come.
fn closes_by(call: &Call, reply: &Reply) -> usize
    ensures { result ≡ the_closes call.now reply.now }
{
    match (call, reply) {
        (Call::OpenOld { slot: _, name: _ }, Reply::Done) => 1,
        (Call::OpenNew { slot: _, name: _ }, Reply::Done) => 1,
        _ => 0,
    }
}
