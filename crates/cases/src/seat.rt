ghost use Rattle.std.specs.Prelude.{◌≡◌, ◌<◌, ℕ, false, is_some, IsTrue, IfOk};
ghost use Rattle.file_log.specs.Seat.{IsIdle};
ghost use Rattle.file_log.specs.State.{disk_of};

use crate::row_files::RowFiles;
use crate::setting::Asked;
use crate::sink::RowSink;
use cache_main::run;
use cache_types::{Bytes, Name, Who};
use file_log::{Call, LogItem, Reply};
use file_model::World;
use files_api::{Files, Source};
use memory_files::{Fault, MemFiles};
use report_text::Status;
use row_text::Wrong;
use std::alloc::Global;

/// The process that makes the files that lie there at first.
const HELPER: u32 = 1_000;

/// The slot in which a process has the file whose lock it holds.
const LOCKED: u8 = 0;

/// A seat on files in memory, which has nothing open.
#[derive(Drop)]
pub struct Seat {
    files: RowFiles,
    /// Its process.
    pub process: u32,
    /// How many items the log had before the last call or stop.
    pub before: u64,
    ghost idle: { IsIdle (⟦<RowFiles as Files>⟧.seen files) },
}

fn who_of(process: u32) -> Who {
    Who { process, seat: 0 }
}

impl Seat {
    /// The first seat, on no files.
    pub fn first(alloc: Global) -> Result<Seat, Wrong> {
        let files = RowFiles::of(MemFiles::new(alloc, who_of(0))?);
        Ok(Seat {
            files,
            process: 0,
            before: 0,
        })
    }

    /// The file of a name.
    pub fn file(&self, name: &Name) -> Result<Option<Bytes>, Wrong> {
        Ok(self.files.inner.world().file(name)?)
    }

    /// How many items were made since the last call began.
    pub fn made(&self) -> u64 {
        self.files
            .inner
            .world()
            .log_len()
            .saturating_sub(self.before)
    }

    /// The log.
    pub fn log(&self) -> Result<Vec<LogItem>, Wrong> {
        Ok(self.files.inner.world().log()?)
    }

    /// How many tries of a lock found it held by someone who isn't in the log.
    pub fn held(&self) -> u64 {
        self.files.held
    }

    /// Makes a call of the program, of whose file calls these fail. So many of its tries of a lock find it held.
    pub fn run<S: Source>(
        &mut self,
        alloc: Global,
        asked: &Asked,
        faults: Vec<Fault>,
        tries: u64,
        source: &mut S,
        out: &mut RowSink,
    ) -> Status {
        self.before = self.files.inner.world().log_len();
        self.files.inner.fail_at(faults);
        self.files.tries = tries;
        self.files.held = 0;
        call(alloc, asked, &mut self.files, source, out)
    }

    /// The seat of another process on the same files.
    pub fn other(self, alloc: Global, process: u32) -> Result<Seat, Wrong> {
        let world = self.files.inner.into_world();
        idle_on(alloc, process, world)
    }

    /// A seat of the next process after a stop, which came so many items after the last call's begin.
    pub fn stopped(&self, alloc: Global, n: u64) -> Result<Seat, Wrong> {
        let process = self.process.saturating_add(1);
        let next = who_of(process);
        let n = self.before.saturating_add(n);
        if !self.files.inner.may_follow(n, next)? {
            return Err(Wrong::of(
                alloc,
                "the log has fewer items, or the process is no new one",
            ));
        }
        let files = self.files.inner.stopped_after(n, next)?;
        let before = files.world().log_len();
        Ok(Seat {
            files: RowFiles::of(files),
            process,
            before,
        })
    }

    /// The same seat once another process has put bytes into a new file.
    pub fn with_file(self, alloc: Global, name: Name, bytes: Bytes) -> Result<Seat, Wrong> {
        let process = self.process;
        let mut files = idle_files(alloc, who_of(HELPER), self.files.inner.into_world())?;
        write(alloc, &mut files, name, bytes)?;
        idle_on(alloc, process, files.into_world())
    }

    /// The same seat once another process holds the lock of a file.
    pub fn with_lock(self, alloc: Global, holder: u32, name: Name) -> Result<Seat, Wrong> {
        let process = self.process;
        let mut files = idle_files(alloc, who_of(holder), self.files.inner.into_world())?;
        lock(alloc, &mut files, name)?;
        idle_on(alloc, process, files.into_world())
    }

    /// The same seat once another process has let its lock go.
    pub fn without_lock(self, alloc: Global, holder: u32) -> Result<Seat, Wrong> {
        let process = self.process;
        let mut world = self.files.inner.into_world();
        unlock(alloc, &mut world, who_of(holder))?;
        idle_on(alloc, process, world)
    }
}

/// Writes a new file.
fn write(alloc: Global, files: &mut MemFiles, name: Name, bytes: Bytes) -> Result<(), Wrong> {
    ask(alloc, files, Call::OpenNew { slot: 0, name })?;
    ask(
        alloc,
        files,
        Call::WriteAt {
            slot: 0,
            at: 0,
            bytes,
        },
    )?;
    ask(alloc, files, Call::Close { slot: 0 })
}

/// Takes the lock of a file.
fn lock(alloc: Global, files: &mut MemFiles, name: Name) -> Result<(), Wrong> {
    ask(alloc, files, Call::OpenNew { slot: LOCKED, name })?;
    ask(alloc, files, Call::TryLock { slot: LOCKED })
}

/// Lets the lock go.
fn unlock(alloc: Global, world: &mut World, holder: Who) -> Result<(), Wrong> {
    if world.is_halted(holder.process) || !world.is_open(holder, LOCKED) {
        return Err(Wrong::of(alloc, "the process holds no lock"));
    }
    world.close(holder, LOCKED);
    Ok(())
}

/// Makes a call of the program.
fn call<S: Source>(
    alloc: Global,
    asked: &Asked,
    files: &mut RowFiles,
    source: &mut S,
    out: &mut RowSink,
) -> Status
    requires { IsIdle (⟦<RowFiles as Files>⟧.seen files.old) }
    ensures { IsIdle (⟦<RowFiles as Files>⟧.seen files.new) }
{
    run(alloc, &asked.words, &asked.vars, files, source, out)
}

/// Whether no slot of a seat is filled.
fn is_empty(world: &World, me: Who) -> bool
    ensures { IsTrue result → (at : ℕ) → at < 8 → is_some ((disk_of world.now.past).slots me at) ≡ false }
{
    for slot in 0..8u8 {
        if world.is_open(me, slot) {
            return false;
        }
    }
    true
}

/// A seat goes on with a world, in which it has nothing open.
fn idle_files(alloc: Global, me: Who, world: World) -> Result<MemFiles, Wrong>
    ensures { IfOk result (λ f. IsIdle (⟦<MemFiles as Files>⟧.seen f)) }
{
    if world.seen(me).inside || !is_empty(&world, me) || world.is_halted(me.process) {
        return Err(Wrong::of(alloc, "the process has something open, or was stopped"));
    }
    Ok(MemFiles::on(alloc, me, world)?)
}

/// A seat of a process goes on with a world.
fn idle_on(alloc: Global, process: u32, world: World) -> Result<Seat, Wrong> {
    let before = world.log_len();
    let files = RowFiles::of(idle_files(alloc, who_of(process), world)?);
    Ok(Seat {
        files,
        process,
        before,
    })
}

/// Makes a file call, which has to be done.
fn ask(alloc: Global, files: &mut MemFiles, call: Call) -> Result<(), Wrong> {
    if !files.may_make(&call) {
        return Err(Wrong::of(alloc, "the process may not make this call"));
    }
    match files.call(call) {
        Reply::Done => Ok(()),
        _ => Err(Wrong::of(alloc, "another process holds the lock")),
    }
}
