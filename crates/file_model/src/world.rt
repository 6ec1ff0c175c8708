ghost use Rattle.std.specs.Prelude.{◌≡◌, ◌<◌, ◌-◌, ◌^◌, ◌∷◌, ◌++◌, [], ℕ, Bool, true, false, None, get_or, length, min, OnOk, OnErr, IfOk, IsOk, is_some};
ghost use Rattle.cache_types.specs.declared.name.Name.TheVariants.{Ro, RoIdx};
ghost use Rattle.file_log.specs.declared.item.LogItem.TheVariants as items;
ghost use Rattle.file_log.specs.Disk.{file_of};
ghost use Rattle.file_log.specs.Exchange.{Answers, NoteMayLack, byte_items, item_of_note};
ghost use Rattle.file_log.specs.Fits.{TextFits};
ghost use Rattle.file_log.specs.Legal.{Legal, IsLegal};
ghost use Rattle.file_log.specs.Seat.{IsFilled, SlotFits, IsTold, course_of};
ghost use Rattle.file_log.specs.State.{first, state_of, disk_of};
ghost use Rattle.file_model.specs.Calls.{MakesOne, IsNoFailure, filled_of};
ghost use Rattle.world_tables.specs.Calls.{TellsClock};
ghost use Rattle.file_model.specs.Held.{told, IsPlain};
ghost use Rattle.world_tables.specs.Pieces.{items_of_pieces, items_grown};
ghost use Rattle.world_tables.specs.Tables.{disk_at};
ghost use Rattle.file_model.specs.Seeing.{seen_by};
ghost use Rattle.file_model.specs.Starts.{NamesDiffer};

use crate::operations::{Operations, begin_in_room, end_in_room, fail_in_room, operation_of};
use crate::seen::Seen;
use cache_types::{Answer, Bytes, Driver, Key, Name, NoMemory, Request, Store, Text, Who};
use file_log::{Call, LogItem, Note, Reply, request_known};
use std::alloc::Global;
use std::collections::{HashMap, HashSet};
use std::marker::Model;
use world_tables::{Book, Piece, Run, Tables, answer_in_room, install_in_room, list_in_room};

/// Files in memory, all that was done to them, and a clock. Contracts see the files that were there at
/// first, the log, and the clock. A world keeps memory for what can't be refused: a Close of each filled
/// slot, and of each open operation its End and its first failure.
#[derive(Debug)]
pub struct World {
    alloc: Global,
    start: Vec<(Name, Bytes)>,
    book: Book,
    tables: Tables,
    halted: HashSet<u32>,
    operations: Operations,
    clock: u64,
}

impl Drop for World {
    fn drop(self) {
        let World {
            alloc: _,
            start: _start,
            book: _book,
            tables: _tables,
            halted: _halted,
            operations: _operations,
            clock: _,
        } = self;
    }
}

impl Model for World {
    ghost use Rattle.file_model.specs.Held.{Held};

    ghost Value = { Held };

    ghost use Rattle.file_model.specs.Worlds.{view_of, AreKept};

    ghost view = { view_of };

    ghost invariant = { AreKept };
}

/// What is known of every text of a list: it is bytes.
pub(crate) fn text_known(text: &Option<Bytes>)
    ensures { TextFits text.now }
{
    if let Some(text) = text {
        text.known();
    }
}

impl World {
    /// No files, nothing done, and the clock at 0. Takes no memory.
    pub fn new(alloc: Global) -> World
        ensures { result ≡ record { past = record { start = []; log = [] }; clock = 0 } }
    {
        World {
            alloc,
            start: Vec::new(alloc),
            book: Book::new(alloc),
            tables: Tables::new(alloc),
            halted: HashSet::new(alloc),
            operations: HashMap::new(alloc),
            clock: 0,
        }
    }

    /// These files at the start, nothing done, and the clock at 0.
    pub fn on_disk(alloc: Global, files: Vec<(Name, Bytes)>) -> Result<World, NoMemory>
        requires { NamesDiffer files.items }
        ensures { IfOk result (λ world. world ≡ record { past = record { start = files.items; log = [] }; clock = 0 }) }
    {
        World::at_first(alloc, files, 0)
    }

    /// These files at the start, nothing done, and the clock at this number.
    pub(crate) fn at_first(
        alloc: Global,
        files: Vec<(Name, Bytes)>,
        clock: u64,
    ) -> Result<World, NoMemory>
        ensures { IfOk result (λ world. world ≡ record { past = record { start = files.items; log = [] }; clock = clock }) }
    {
        let tables = Tables::of(alloc, &files)?;
        Ok(World {
            alloc,
            start: files,
            book: Book::new(alloc),
            tables,
            halted: HashSet::new(alloc),
            operations: HashMap::new(alloc),
            clock,
        })
    }

    /// Sets the clock. Takes no memory.
    pub fn set_clock(&mut self, now: u64)
        ensures { self.new ≡ record self.old { clock = now } }
    {
        self.clock = now;
    }

    /// The clock's number.
    pub fn now(&self) -> u64
        ensures { result ≡ self.now.clock }
    {
        self.clock
    }

    /// Whether a slot of a seat is filled.
    pub fn is_open(&self, who: Who, slot: u8) -> bool
        ensures { result ≡ is_some ((disk_of self.now.past).slots who slot) }
    {
        self.tables.is_open(who, slot)
    }

    /// Whether a process was stopped.
    pub fn is_halted(&self, process: u32) -> bool
        ensures { result ≡ (state_of self.now.past).halted process }
    {
        self.halted.contains(&process)
    }

    /// Makes a call that makes one item, and tells it with its reply. A refusal changes nothing.
    pub fn did(&mut self, who: Who, call: Call) -> Result<Reply, NoMemory>
        requires slots { SlotFits (filled_of (disk_of self.old.past) who) call }
        requires one { MakesOne call }
        requires alive { (state_of self.old.past).halted who.process ≡ false }
        ensures ok { IfOk result (λ reply. self.new ≡ told self.old (items.Did who call reply ∷ [])) }
        ensures legal { IfOk result (λ reply. IsLegal (state_of self.old.past) (items.Did who call reply)) }
        ensures fits { IfOk result (λ reply. (inside : Bool) → Answers inside call reply × IsNoFailure reply) }
        ensures clock { IfOk result (λ reply. TellsClock call self.old.clock reply) }
        ensures err { OnErr result (self.new ≡ self.old) }
    {
        call.known();
        let reply = self.tables.reply_to(self.alloc, self.clock, who, &call)?;
        let told = reply.copy()?;
        self.answered(who, call, told)?;
        Ok(reply)
    }

    /// Does what a call does that is answered so, and tells it. A refusal changes nothing.
    pub(crate) fn answered(&mut self, who: Who, call: Call, reply: Reply) -> Result<(), NoMemory>
        requires { IsLegal (state_of self.old.past) (items.Did who call reply) }
        ensures ok { OnOk result (self.new ≡ told self.old (items.Did who call reply ∷ [])) }
        ensures err { OnErr result (self.new ≡ self.old) }
    {
        answer_in_room(
            &mut self.book,
            &mut self.tables,
            self.alloc,
            who,
            &call,
            &reply,
        )?;
        self.book.put(LogItem::Did { who, call, reply });
        Ok(())
    }

    /// Empties a slot and frees its lock. Takes no memory.
    pub fn close(&mut self, who: Who, slot: u8)
        requires slot { IsFilled (filled_of (disk_of self.old.past) who) slot }
        requires alive { (state_of self.old.past).halted who.process ≡ false }
        ensures told { self.new ≡ told self.old (items.Did who (Call.Close slot) Reply.Done ∷ []) }
        ensures legal { IsLegal (state_of self.old.past) (items.Did who (Call.Close slot) Reply.Done) }
    {
        self.tables.close(who, slot);
        self.book.put(LogItem::Did {
            who,
            call: Call::Close { slot },
            reply: Reply::Done,
        });
    }

    /// Writes one byte to the file of a slot. A refusal changes nothing.
    pub fn write_byte(&mut self, who: Who, slot: u8, at: u64, value: u8) -> Result<(), NoMemory>
        requires slot { IsFilled (filled_of (disk_of self.old.past) who) slot }
        requires alive { (state_of self.old.past).halted who.process ≡ false }
        ensures ok { OnOk result (self.new ≡ told self.old (items.Byte who slot at value ∷ [])) }
        ensures legal { OnOk result (IsLegal (state_of self.old.past) (items.Byte who slot at value)) }
        ensures err { OnErr result (self.new ≡ self.old) }
    {
        self.tables
            .write_byte(&mut self.book, who, slot, at, value)?;
        Ok(())
    }

    /// Writes bytes from a place on to the file of a slot. The log keeps them as they are, in their own
    /// memory. A refusal changes nothing.
    pub fn write_run(&mut self, who: Who, slot: u8, at: u64, bytes: Bytes) -> Result<(), NoMemory>
        requires slot { IsFilled (filled_of (disk_of self.old.past) who) slot }
        requires alive { (state_of self.old.past).halted who.process ≡ false }
        ensures ok { OnOk result (self.new ≡ told self.old (byte_items who slot at bytes)) }
        ensures legal { OnOk result (Legal (state_of self.old.past) (byte_items who slot at bytes)) }
        ensures err { OnErr result (self.new ≡ self.old) }
    {
        bytes.known();
        // No memory holds a file that ends beyond the greatest place.
        let Some(_end) = at.checked_add(bytes.len()) else {
            return Err(NoMemory);
        };
        let run = Run {
            who,
            slot,
            at,
            bytes,
        };
        self.tables.write_run(&mut self.book, run)?;
        Ok(())
    }

    /// Tells that a call of a seat failed, or with `memory` that it was refused memory. The first failure
    /// of an open operation takes no memory. A refusal changes nothing.
    pub fn fail(&mut self, who: Who, memory: bool) -> Result<(), NoMemory>
        requires { (state_of self.old.past).halted who.process ≡ false }
        ensures ok { OnOk result (self.new ≡ told self.old (items.Failed who memory ∷ [])) }
        ensures legal { IsLegal (state_of self.old.past) (items.Failed who memory) }
        ensures err { OnErr result (self.new ≡ self.old) }
        ensures kept { course_of who self.old.past.log ≡ record { inside = true; hurt = false } → IsOk result }
    {
        fail_in_room(&mut self.book, &mut self.operations, who)?;
        self.book.put(LogItem::Failed { who, memory });
        Ok(())
    }

    /// Tells a note of a seat. The End of an open operation takes no memory. A refusal changes nothing.
    pub fn tell(&mut self, who: Who, note: Note) -> Result<(), NoMemory>
        requires { (state_of self.old.past).halted who.process ≡ false }
        ensures ok { OnOk result (self.new ≡ told self.old (item_of_note who note ∷ [])) }
        ensures legal { IsLegal (state_of self.old.past) (item_of_note who note) }
        ensures err { OnErr result (self.new ≡ self.old) }
        ensures kept { OnErr result (NoteMayLack (course_of who self.old.past.log).inside note) }
    {
        match note {
            Note::Begin(request) => self.begin(who, request),
            Note::Evict { store, driver, key } => self.evict(who, store, driver, key),
            Note::End(answer) => self.end(who, answer),
        }
    }

    /// Tells that an operation begins.
    fn begin(&mut self, who: Who, request: Request) -> Result<(), NoMemory>
        requires { (state_of self.old.past).halted who.process ≡ false }
        ensures ok { OnOk result (self.new ≡ told self.old (items.Begin who request ∷ [])) }
        ensures legal { IsLegal (state_of self.old.past) (items.Begin who request) }
        ensures err { OnErr result (self.new ≡ self.old) }
    {
        request_known(&request);
        begin_in_room(&mut self.book, &mut self.operations, who)?;
        self.book.put(LogItem::Begin { who, request });
        Ok(())
    }

    /// Tells that an entry is about to go.
    fn evict(&mut self, who: Who, store: Store, driver: Driver, key: Key) -> Result<(), NoMemory>
        requires { (state_of self.old.past).halted who.process ≡ false }
        ensures ok { OnOk result (self.new ≡ told self.old (items.Evict who store driver key ∷ [])) }
        ensures legal { IsLegal (state_of self.old.past) (items.Evict who store driver key) }
        ensures err { OnErr result (self.new ≡ self.old) }
    {
        driver.known();
        key.known();
        self.add_plain(LogItem::Evict {
            who,
            store,
            driver,
            key,
        })
    }

    /// Tells an item that changes no file and opens or ends no operation. A refusal changes nothing.
    pub(crate) fn add_plain(&mut self, item: LogItem) -> Result<(), NoMemory>
        requires plain { IsPlain item }
        requires legal { IsLegal (state_of self.old.past) item }
        ensures ok { OnOk result (self.new ≡ told self.old (item ∷ [])) }
        ensures err { OnErr result (self.new ≡ self.old) }
    {
        self.book.make_room(1)?;
        self.book.put(item);
        Ok(())
    }

    /// Tells that an operation ends. Takes no memory where one is open.
    fn end(&mut self, who: Who, answer: Answer) -> Result<(), NoMemory>
        requires { (state_of self.old.past).halted who.process ≡ false }
        ensures ok { OnOk result (self.new ≡ told self.old (items.End who answer ∷ [])) }
        ensures legal { IsLegal (state_of self.old.past) (items.End who answer) }
        ensures err { OnErr result (self.new ≡ self.old) }
        ensures kept { (course_of who self.old.past.log).inside ≡ true → IsOk result }
    {
        end_in_room(&mut self.book, &mut self.operations, who)?;
        self.book.put(LogItem::End { who, answer });
        Ok(())
    }

    /// Stops a process: its slots are empty and its locks free, and what it wrote stays. A process can be
    /// stopped again. A refusal changes nothing.
    pub fn stop(&mut self, process: u32) -> Result<(), NoMemory>
        ensures ok { OnOk result (self.new ≡ told self.old (items.Stop process ∷ [])) }
        ensures legal { IsLegal (state_of self.old.past) (items.Stop process) }
        ensures err { OnErr result (self.new ≡ self.old) }
    {
        self.book.make_room(1)?;
        let _added = self.halted.insert(process)?;
        self.tables.stop(process);
        self.book.put(LogItem::Stop { process });
        Ok(())
    }

    /// Brings a read-only database: its two names get new files. A refusal changes nothing.
    pub fn install(
        &mut self,
        root: u32,
        name: Text,
        main: Bytes,
        index: Bytes,
    ) -> Result<(), NoMemory>
        requires main { (disk_of self.old.past).names (Ro root name) ≡ None }
        requires index { (disk_of self.old.past).names (RoIdx root name) ≡ None }
        ensures ok { OnOk result (self.new ≡ told self.old (items.Install root name main index ∷ [])) }
        ensures legal { IsLegal (state_of self.old.past) (items.Install root name main index) }
        ensures err { OnErr result (self.new ≡ self.old) }
    {
        main.known();
        index.known();
        install_in_room(
            &mut self.book,
            &mut self.tables,
            self.alloc,
            root,
            &name,
            &main,
            &index,
        )?;
        self.book.put(LogItem::Install {
            root,
            name,
            main,
            index,
        });
        Ok(())
    }

    /// Sets the list of read-only databases: its name gets a new file, or none. A refusal changes nothing.
    pub fn set_list(&mut self, text: Option<Bytes>) -> Result<(), NoMemory>
        ensures ok { OnOk result (self.new ≡ told self.old (items.SetList text ∷ [])) }
        ensures legal { IsLegal (state_of self.old.past) (items.SetList text) }
        ensures err { OnErr result (self.new ≡ self.old) }
    {
        text_known(&text);
        list_in_room(&mut self.book, &mut self.tables, self.alloc, &text)?;
        self.book.put(LogItem::SetList { text });
        Ok(())
    }

    /// A copy of the bytes of the file that a name has now; `None` exactly where it has none.
    pub fn file(&self, name: &Name) -> Result<Option<Bytes>, NoMemory>
        ensures { IfOk result (λ bytes. bytes ≡ file_of (disk_of self.now.past) name.now) }
    {
        self.tables.file(self.alloc, name)
    }

    /// A copy of the log.
    pub fn log(&self) -> Result<Vec<LogItem>, NoMemory>
        ensures { IfOk result (λ items. items.items ≡ self.now.past.log) }
    {
        self.book.items()
    }

    /// How many items the log has, or the greatest number where it has more. Takes no memory.
    pub fn log_len(&self) -> u64
        ensures { result ≡ min (length self.now.past.log) (2 ^ 64 - 1) }
    {
        self.book.len()
    }

    /// What the log says of a seat. Takes no memory.
    pub fn seen(&self, who: Who) -> Seen
        ensures { IsTold who (seen_by result) self.now.past }
    {
        let filled = self.filled(who);
        match operation_of(&self.operations, who) {
            None => Seen {
                filled,
                inside: false,
                hurt: false,
            },
            Some(operation) => Seen {
                filled,
                inside: true,
                hurt: operation.hurt,
            },
        }
    }

    /// The files as they are now, and who has them open and locked.
    pub fn tables(&self) -> &Tables
        ensures { disk_at result.now ≡ disk_of self.now.past }
    {
        &self.tables
    }

    /// The files that were there at first.
    pub(crate) fn start(&self) -> &[(Name, Bytes)]
        ensures { result.now ≡ self.now.past.start }
    {
        &self.start
    }

    /// The log in pieces, and the run that grows after them, if there is one.
    pub(crate) fn pieces(&self) -> (&[Piece], &Option<Run>)
        ensures items { self.now.past.log ≡ items_of_pieces result.0.now ++ items_grown result.1.now }
        ensures legal { Legal (first self.now.past.start) self.now.past.log }
    {
        self.book.pieces()
    }

    /// Whether an operation of a seat is open. Takes no memory.
    pub(crate) fn is_inside(&self, who: Who) -> bool
        ensures { result ≡ (course_of who self.now.past.log).inside }
    {
        operation_of(&self.operations, who).is_some()
    }

    /// The allocator of all that the world keeps.
    pub fn alloc(&self) -> Global {
        self.alloc
    }

    /// Which slots of a seat are filled.
    fn filled(&self, who: Who) -> [bool; 8]
        ensures { (at : ℕ) → at < 8 → get_or result at false ≡ is_some ((disk_of self.now.past).slots who at) }
    {
        let mut filled = [false; 8];
        for slot in 0..8u8 {
            filled[slot as usize] = self.is_open(who, slot);
        }
        filled
    }
}
