ghost use Rattle.std.specs.Prelude.{◌≡◌, ◌≤◌, ◌∷◌, [], length, take, IfOk, OnOk, OnErr};
ghost use Rattle.file_log.specs.declared.item.LogItem.TheVariants as items;
ghost use Rattle.file_log.specs.Legal.{IsLegal, Legal};
ghost use Rattle.file_log.specs.State.{first, state_of};
ghost use Rattle.file_model.specs.Held.{told, first_of, with_log};
ghost use Rattle.world_tables.specs.Pieces.{items_of_run, items_of_piece, items_grown};

use crate::world::World;
use cache_types::{Bytes, Name, NoMemory, Text, Who};
use file_log::{Call, LogItem, Note, Reply};
use std::alloc::Global;
use world_tables::{Piece, Run, len_of_piece};

/// The world after these items from the files that another world had at first, with its clock as it is now.
pub fn disk_of(start: &World, log: &[LogItem]) -> Result<World, NoMemory>
    requires { Legal (first start.now.past.start) log.now }
    ensures { IfOk result (λ world. world ≡ with_log start.now log.now) }
{
    let mut world = start.opening()?;
    for item in log {
        world.repeat(item)?;
    }
    Ok(world)
}

impl World {
    /// The world before its first item, with the clock as it is now.
    pub(crate) fn opening(&self) -> Result<World, NoMemory>
        ensures { IfOk result (λ world. world ≡ with_log self.now []) }
    {
        let files = copy_files(self.alloc(), self.start())?;
        World::at_first(self.alloc(), files, self.now())
    }

    /// The world as it was after the first `n` items of its log, with the clock as it is now.
    pub fn first_items(&self, n: u64) -> Result<World, NoMemory>
        requires { n ≤ length self.now.past.log }
        ensures { IfOk result (λ world. world ≡ first_of n self.now) }
    {
        let mut world = self.opening()?;
        let (pieces, growing) = self.pieces();
        let mut left = n;
        for piece in pieces {
            world.replay_piece(piece, left)?;
            left = left.saturating_sub(len_of_piece(piece));
        }
        world.replay_growing(growing, left)?;
        Ok(world)
    }

    /// Does again what the first items of a piece tell, at most so many.
    fn replay_piece(&mut self, piece: &Piece, most: u64) -> Result<(), NoMemory>
        requires { Legal (state_of self.old.past) (take most (items_of_piece piece.now)) }
        ensures { OnOk result (self.new ≡ told self.old (take most (items_of_piece piece.now))) }
    {
        match piece {
            Piece::One(item) => {
                if most == 0 {
                    return Ok(());
                }
                self.repeat(item)
            }
            Piece::Written(run) => self.replay_run(run, most),
        }
    }

    /// The same of the run that still grows, if there is one.
    fn replay_growing(&mut self, growing: &Option<Run>, most: u64) -> Result<(), NoMemory>
        requires { Legal (state_of self.old.past) (take most (items_grown growing.now)) }
        ensures { OnOk result (self.new ≡ told self.old (take most (items_grown growing.now))) }
    {
        match growing {
            None => Ok(()),
            Some(run) => self.replay_run(run, most),
        }
    }

    /// Writes the first bytes of a run again, at most so many.
    fn replay_run(&mut self, run: &Run, most: u64) -> Result<(), NoMemory>
        requires { Legal (state_of self.old.past) (take most (items_of_run run.now)) }
        ensures { OnOk result (self.new ≡ told self.old (take most (items_of_run run.now))) }
    {
        let count = most.min(run.bytes.len());
        if count == 0 {
            return Ok(());
        }
        let bytes = Bytes::of(self.alloc(), &run.bytes.as_slice()[..count as usize])?;
        self.write_run(run.who, run.slot, run.at, bytes)
    }

    /// Does again what an item of a log tells, and tells it. A refusal changes nothing.
    pub fn replay(&mut self, item: LogItem) -> Result<(), NoMemory>
        requires { IsLegal (state_of self.old.past) item }
        ensures ok { OnOk result (self.new ≡ told self.old (item ∷ [])) }
        ensures err { OnErr result (self.new ≡ self.old) }
    {
        self.repeat(&item)
    }

    /// The same of an item that stays where it is: what the log keeps of it is a copy.
    pub fn repeat(&mut self, item: &LogItem) -> Result<(), NoMemory>
        requires { IsLegal (state_of self.old.past) item.now }
        ensures ok { OnOk result (self.new ≡ told self.old (item.now ∷ [])) }
        ensures err { OnErr result (self.new ≡ self.old) }
    {
        match item {
            LogItem::Begin { who, request } => {
                self.tell(*who, Note::Begin(request.copy(self.alloc())?))
            }
            LogItem::Did { who, call, reply } => self.repeat_call(*who, call, reply),
            LogItem::Byte {
                who,
                slot,
                at,
                value,
            } => self.write_byte(*who, *slot, *at, *value),
            LogItem::Failed { who, memory } => self.fail(*who, *memory),
            LogItem::End { who, answer } => {
                self.tell(*who, Note::End(answer.copy(self.alloc())?))
            }
            LogItem::Stop { process } => self.stop(*process),
            LogItem::Install {
                root,
                name,
                main,
                index,
            } => self.repeat_install(*root, name, main, index),
            LogItem::SetList { text } => self.set_list(copy_text(text)?),
            _ => self.add_plain(item.copy(self.alloc())?),
        }
    }

    /// Makes a call again that is answered so.
    fn repeat_call(&mut self, who: Who, call: &Call, reply: &Reply) -> Result<(), NoMemory>
        requires { IsLegal (state_of self.old.past) (items.Did who call.now reply.now) }
        ensures ok { OnOk result (self.new ≡ told self.old (items.Did who call.now reply.now ∷ [])) }
        ensures err { OnErr result (self.new ≡ self.old) }
    {
        let reply = reply.copy()?;
        self.answered(who, call.copy(self.alloc())?, reply)
    }

    /// Brings a read-only database again.
    fn repeat_install(
        &mut self,
        root: u32,
        name: &Text,
        main: &Bytes,
        index: &Bytes,
    ) -> Result<(), NoMemory>
        requires { IsLegal (state_of self.old.past) (items.Install root name.now main.now index.now) }
        ensures ok { OnOk result (self.new ≡ told self.old (items.Install root name.now main.now index.now ∷ [])) }
        ensures err { OnErr result (self.new ≡ self.old) }
    {
        let name = name.copy()?;
        let main = main.copy()?;
        self.install(root, name, main, index.copy()?)
    }
}

/// The same bytes in memory of their own, where there are any.
fn copy_text(text: &Option<Bytes>) -> Result<Option<Bytes>, NoMemory>
    ensures { IfOk result (λ copy. copy ≡ text.now) }
{
    match text {
        None => Ok(None),
        Some(text) => Ok(Some(text.copy()?)),
    }
}

/// The same files in memory of their own.
fn copy_files(alloc: Global, files: &[(Name, Bytes)]) -> Result<Vec<(Name, Bytes)>, NoMemory>
    ensures { IfOk result (λ copies. copies.items ≡ files.now) }
{
    let mut copies = Vec::new(alloc);
    for file in files {
        copies.push((file.0.copy()?, file.1.copy()?))?;
    }
    Ok(copies)
}
