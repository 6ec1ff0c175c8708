ghost use Rattle.std.specs.Prelude.{◌≡◌, ◌≤◌, ◌<◌, ◌+◌, ◌∷◌, [], take, length, OnOk, OnErr, IfOk};
ghost use Rattle.std.specs.Vec.{vec_capacity};
ghost use Rattle.file_log.specs.Writing.{written, pasted};
ghost use Rattle.file_log.specs.declared.item.LogItem.TheVariants.{Byte};
ghost use Rattle.world_tables.specs.Pieces.{items_of_run};
ghost use Rattle.world_tables.specs.Told.{with_news};

use crate::book::Book;
use crate::piece::Run;
use cache_types::{Bytes, NoMemory, Who};
use std::alloc::Global;
use std::marker::Model;

/// The bytes of a file.
#[derive(Debug)]
pub struct File {
    held: Vec<u8>,
}

impl Drop for File {
    fn drop(self) {
        let File { held: _held } = self;
    }
}

impl Model for File {
    ghost use Rattle.std.specs.Prelude.{List, ℕ};

    ghost Value = { List ℕ };

    ghost view = { λ f. f.held.items };
}

impl File {
    /// An empty file. Takes no memory.
    pub fn new(alloc: Global) -> File
        ensures { result ≡ [] }
    {
        File {
            held: Vec::new(alloc),
        }
    }

    /// A file with a copy of these bytes.
    pub fn of(alloc: Global, bytes: &[u8]) -> Result<File, NoMemory>
        ensures { IfOk result (λ f. f ≡ bytes.now) }
    {
        let held = Vec::from_slice(alloc, bytes)?;
        Ok(File { held })
    }

    /// The bytes.
    pub fn as_slice(&self) -> &[u8]
        ensures { result.now ≡ self.now }
    {
        self.held.as_slice()
    }

    /// Cuts a longer file to so many bytes.
    pub fn cut(&mut self, n: u64)
        ensures { self.new ≡ take n self.old }
    {
        self.held.truncate(n as usize);
    }

    /// Writes a run, and tells it. It does both or neither.
    pub fn put_run(&mut self, book: &mut Book, run: Run) -> Result<(), NoMemory>
        ensures ok { OnOk result (self.new ≡ written run.at run.bytes self.old) }
        ensures told { OnOk result (book.new ≡ with_news book.old (items_of_run run)) }
        ensures err { OnErr result ((self.new ≡ self.old) × (book.new ≡ book.old)) }
    {
        if run.bytes.is_empty() {
            return Ok(());
        }
        reach(&mut self.held, run.at, run.bytes.len())?;
        book.make_room(1)?;
        paste(&mut self.held, run.at as usize, run.bytes.as_slice());
        book.put_run(run);
        Ok(())
    }

    /// Writes one byte, and tells it. It does both or neither.
    pub fn put_byte(
        &mut self,
        book: &mut Book,
        who: Who,
        slot: u8,
        at: u64,
        value: u8,
    ) -> Result<(), NoMemory>
        ensures ok { OnOk result (self.new ≡ written at (value ∷ []) self.old) }
        ensures told { OnOk result (book.new ≡ with_news book.old (Byte who slot at value ∷ [])) }
        ensures err { OnErr result ((self.new ≡ self.old) × (book.new ≡ book.old)) }
    {
        reach(&mut self.held, at, 1)?;
        book.put_byte(who, slot, at, value)?;
        paste(&mut self.held, at as usize, &[value]);
        Ok(())
    }
}

/// Takes the memory for so many bytes from a place on.
fn reach(held: &mut Vec<u8>, at: u64, count: u64) -> Result<(), NoMemory>
    ensures items { held.new.items ≡ held.old.items }
    ensures capacity { OnOk result (at + count ≤ vec_capacity held.new) }
{
    let Some(end) = at.checked_add(count) else {
        return Err(NoMemory);
    };
    let end = end as usize;
    let len = held.len();
    if end > len {
        held.reserve(end - len)?;
    }
    Ok(())
}

/// Writes bytes from a place on, in memory that was taken for them.
fn paste(held: &mut Vec<u8>, at: usize, values: &[u8])
    requires { at + length values.now ≤ vec_capacity held.old }
    ensures { held.new.items ≡ pasted at values.now held.old.items }
{
    let end = at + values.len();
    if end < held.len() {
        held[at..end].copy_from_slice(values);
    } else {
        let _resized = held.resize(at, 0);
        let _extended = held.extend_from_slice(values);
    }
}
