ghost use Rattle.std.specs.Prelude.{◌≡◌, ◌≤◌, ◌<◌, ◌+◌, ◌-◌, ◌++◌, ◌∷◌, ◌^◌, [], OnOk, OnErr, IfOk, None, length, min, IsTrue};
ghost use Rattle.std.specs.Vec.{vec_len, vec_capacity};
ghost use Rattle.file_log.specs.declared.item.LogItem.TheVariants.{Byte};
ghost use Rattle.world_tables.specs.Pieces.{items_of_run, items_of_piece, items_of_pieces, items_grown, runs_grown};
ghost use Rattle.world_tables.specs.Told.{with_news, with_one};

use crate::piece::{Piece, Run};
use cache_types::{Bytes, NoMemory, Who};
use file_log::LogItem;
use std::alloc::{AllocFailed, Global};
use std::marker::Model;

/// The log of a world. Bytes that were written one after another are kept as one piece, from the first
/// of them on. It can take memory beforehand, so that an item that comes later is never refused.
#[derive(Debug)]
pub struct Book {
    alloc: Global,
    pieces: Vec<Piece>,
    growing: Option<Run>,
    room: usize,
}

impl Drop for Book {
    fn drop(self) {
        let Book {
            alloc: _,
            pieces: _pieces,
            growing: _growing,
            room: _,
        } = self;
    }
}

impl Model for Book {
    ghost use Rattle.world_tables.specs.Told.{Told};

    ghost Value = { Told };

    ghost use Rattle.world_tables.specs.Books.{told_by, HasRoom};

    ghost view = { told_by };

    ghost invariant = { HasRoom };
}

/// More room than any memory holds.
const MOST_ROOM: usize = 1 << 40;

impl Book {
    /// No items and no room. Takes no memory.
    pub fn new(alloc: Global) -> Book
        ensures { result ≡ record { items = []; room = 0 } }
    {
        Book {
            alloc,
            pieces: Vec::new(alloc),
            growing: None,
            room: 0,
        }
    }

    /// Takes the memory for so many items more.
    pub fn make_room(&mut self, more: usize) -> Result<(), NoMemory>
        ensures ok { OnOk result (self.new ≡ record self.old { room = self.old.room + more }) }
        ensures err { OnErr result (self.new ≡ self.old) }
    {
        if more >= MOST_ROOM || self.room >= MOST_ROOM - more {
            return Err(NoMemory);
        }
        self.pieces.reserve(self.room + more + 1)?;
        self.room += more;
        Ok(())
    }

    /// Gives room back.
    pub fn give_room(&mut self, less: usize)
        requires { less ≤ self.old.room }
        ensures { self.new ≡ record self.old { room = self.old.room - less } }
    {
        self.room -= less;
    }

    /// Adds an item, in room that was taken for it.
    pub fn put(&mut self, item: LogItem)
        requires { 0 < self.old.room }
        ensures { self.new ≡ with_one self.old (item ∷ []) }
    {
        add(&mut self.pieces, &mut self.growing, Piece::One(item));
        self.room -= 1;
    }

    /// Adds bytes that were written one after another, in room that was taken for them.
    pub fn put_run(&mut self, run: Run)
        requires { 0 < self.old.room }
        ensures { self.new ≡ with_one self.old (items_of_run run) }
    {
        add(&mut self.pieces, &mut self.growing, Piece::Written(run));
        self.room -= 1;
    }

    /// The pieces, and the run that grows after them, if there is one.
    pub fn pieces(&self) -> (&[Piece], &Option<Run>)
        ensures { self.now.items ≡ items_of_pieces result.0.now ++ items_grown result.1.now }
    {
        (&self.pieces, &self.growing)
    }

    /// How many items there are, or the greatest number where there are more.
    pub fn len(&self) -> u64
        ensures { result ≡ min (length self.now.items) (2 ^ 64 - 1) }
    {
        let mut len: u64 = 0;
        for piece in &self.pieces {
            len = len.saturating_add(len_of_piece(piece));
        }
        len.saturating_add(len_of_growing(&self.growing))
    }

    /// A copy of the items.
    pub fn items(&self) -> Result<Vec<LogItem>, NoMemory>
        ensures { IfOk result (λ items. items.items ≡ self.now.items) }
    {
        let mut items = Vec::new(self.alloc);
        for piece in &self.pieces {
            copy_piece(self.alloc, &mut items, piece)?;
        }
        if let Some(run) = &self.growing {
            copy_run(&mut items, run)?;
        }
        Ok(items)
    }

    /// Adds one byte that was written.
    pub fn put_byte(&mut self, who: Who, slot: u8, at: u64, value: u8) -> Result<(), NoMemory>
        ensures ok { OnOk result (self.new ≡ with_news self.old (Byte who slot at value ∷ [])) }
        ensures err { OnErr result (self.new ≡ self.old) }
    {
        if let Some(run) = &mut self.growing {
            if goes_on(run, who, slot, at) {
                run.bytes.push(value)?;
                return Ok(());
            }
        }
        let mut bytes = Bytes::new(self.alloc);
        bytes.push(value)?;
        self.pieces.reserve(self.room + 2)?;
        settle(&mut self.pieces, &mut self.growing);
        self.growing = Some(Run {
            who,
            slot,
            at,
            bytes,
        });
        Ok(())
    }
}

/// Whether a byte at this place goes on with a run.
fn goes_on(run: &Run, who: Who, slot: u8, at: u64) -> bool
    ensures { IsTrue result → (run.now.who ≡ who) × (run.now.slot ≡ slot) × (run.now.at + length run.now.bytes ≡ at) }
{
    let Some(end) = run.at.checked_add(run.bytes.len()) else {
        return false;
    };
    run.who == who && run.slot == slot && end == at
}

/// Lets go of what a push into room that is there can't refuse.
fn discard(_: Result<(), AllocFailed<Piece>>) {}

/// Ends the run that grows.
fn settle(pieces: &mut Vec<Piece>, growing: &mut Option<Run>)
    requires { vec_len pieces.old + runs_grown growing.old ≤ vec_capacity pieces.old }
    ensures items { items_of_pieces pieces.new.items ≡ items_of_pieces pieces.old.items ++ items_grown growing.old }
    ensures growing { growing.new ≡ None }
    ensures len { vec_len pieces.new ≡ vec_len pieces.old + runs_grown growing.old }
    ensures capacity { vec_capacity pieces.old ≤ vec_capacity pieces.new }
{
    if let Some(run) = growing.take() {
        discard(pieces.push(Piece::Written(run)));
    }
}

/// Adds a piece after the run that grows.
fn add(pieces: &mut Vec<Piece>, growing: &mut Option<Run>, piece: Piece)
    requires { vec_len pieces.old + runs_grown growing.old < vec_capacity pieces.old }
    ensures items { items_of_pieces pieces.new.items ++ items_grown growing.new ≡ (items_of_pieces pieces.old.items ++ items_grown growing.old) ++ items_of_piece piece }
    ensures growing { growing.new ≡ None }
    ensures len { vec_len pieces.new ≡ vec_len pieces.old + runs_grown growing.old + 1 }
    ensures capacity { vec_capacity pieces.old ≤ vec_capacity pieces.new }
{
    settle(pieces, growing);
    discard(pieces.push(piece));
}

/// How many items a run stands for.
fn len_of_run(run: &Run) -> u64
    ensures { result ≡ length (items_of_run run.now) }
{
    run.bytes.len()
}

/// How many items a piece stands for.
pub fn len_of_piece(piece: &Piece) -> u64
    ensures { result ≡ length (items_of_piece piece.now) }
{
    match piece {
        Piece::One(_) => 1,
        Piece::Written(run) => len_of_run(run),
    }
}

/// How many items the run that grows stands for.
fn len_of_growing(growing: &Option<Run>) -> u64
    ensures { result ≡ length (items_grown growing.now) }
{
    match growing {
        None => 0,
        Some(run) => len_of_run(run),
    }
}

/// Adds a copy of each item of a piece.
fn copy_piece(alloc: Global, items: &mut Vec<LogItem>, piece: &Piece) -> Result<(), NoMemory>
    ensures { OnOk result (items.new.items ≡ items.old.items ++ items_of_piece piece.now) }
{
    match piece {
        Piece::One(item) => {
            items.push(item.copy(alloc)?)?;
            Ok(())
        }
        Piece::Written(run) => copy_run(items, run),
    }
}

/// Adds an item for each byte of a run.
fn copy_run(items: &mut Vec<LogItem>, run: &Run) -> Result<(), NoMemory>
    ensures { OnOk result (items.new.items ≡ items.old.items ++ items_of_run run.now) }
{
    for (index, value) in run.bytes.as_slice().iter().enumerate() {
        items.push(LogItem::Byte {
            who: run.who,
            slot: run.slot,
            at: run.at + index as u64,
            value: *value,
        })?;
    }
    Ok(())
}
