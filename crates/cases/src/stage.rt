use crate::folder::Folder;
use crate::seat::Seat;
use crate::setting::{Asked, Failures, Input};
use crate::sink::RowSink;
use crate::wanted::{Ended, Wanted};
use crate::zeros::Zeros;
use crate::{looks, places, request};
use cache_types::{Bytes, Name};
use files_api::Source;
use memory_files::MemSource;
use report_text::Status;
use row_text::{Round, Sentence, Stage, Wrong, name_of};
use std::alloc::Global;
use std::mem;

/// The stage that the rows of a case are played on.
#[derive(Drop)]
pub struct CaseStage {
    rt: HostRuntime,
    alloc: Global,
    seat: Seat,
    folder: Option<Folder>,
    vars: Vec<(String, String)>,
    failures: Failures,
    round: Round,
}

impl Stage for CaseStage {
    fn begin(rt: &HostRuntime, number: u64) -> Result<CaseStage, Wrong> {
        let alloc = rt.alloc();
        Ok(CaseStage {
            rt: rt.clone()?,
            alloc,
            seat: Seat::first(alloc)?,
            folder: None,
            vars: Vec::new(alloc),
            failures: Failures::none(alloc),
            round: Round::of(number),
        })
    }

    fn act(&mut self, verb: &str, row: &mut Sentence) -> Result<(), Wrong> {
        match verb {
            "variable" => self.variable(row),
            "fail" => self.failures.add(row, &mut self.round),
            "lock" => self.failures.hold(row),
            "slow" => self.slow(row),
            "run" => self.run(row),
            "root" => places::root(&self.vars, row),
            "then" => self.then(row),
            "real" => self.real(row),
            "lies" => self.lies(row),
            _ => self.act_in_memory(verb, row),
        }
    }

    fn round(&self) -> Round {
        self.round
    }
}

impl CaseStage {
    /// Does what a row says that is about files in memory alone.
    fn act_in_memory(&mut self, verb: &str, row: &mut Sentence) -> Result<(), Wrong> {
        if self.folder.is_some() {
            return Err(Wrong::of(self.alloc, "no row about real files begins so"));
        }
        match verb {
            "file" => self.file(row),
            "process" => self.process(row),
            "stop" => self.stop(row),
            "made" => looks::made(&self.seat, row),
            "asked" => request::asked(&self.seat, row),
            "evicted" => request::evicted(&self.seat, row),
            _ => Err(Wrong::Found(format!(in self.alloc; "no row begins with '{verb}'")?)),
        }
    }

    /// `variable NAME is VALUE`
    fn variable(&mut self, row: &mut Sentence) -> Result<(), Wrong> {
        let name = row.text()?;
        row.wants("is")?;
        let value = row.text()?;
        self.vars.push((name, value))?;
        Ok(())
    }

    /// `slow output`
    fn slow(&mut self, row: &mut Sentence) -> Result<(), Wrong> {
        row.wants("output")?;
        self.failures.slow = true;
        Ok(())
    }

    /// `then NAME ..`, `then lies PATH ..`
    fn then(&mut self, row: &mut Sentence) -> Result<(), Wrong> {
        match &self.folder {
            None => looks::then(&self.seat, row),
            Some(folder) => {
                row.wants("lies")?;
                folder.then(row)
            }
        }
    }

    /// `real NAME`
    fn real(&mut self, row: &mut Sentence) -> Result<(), Wrong> {
        self.folder = Some(Folder::new(&self.rt, row)?);
        Ok(())
    }

    /// `lies PATH ..`
    fn lies(&mut self, row: &mut Sentence) -> Result<(), Wrong> {
        match &mut self.folder {
            None => Err(Wrong::of(self.alloc, "'real NAME' is wanted before")),
            Some(folder) => folder.lies(row),
        }
    }

    /// `file NAME holds BYTES`
    fn file(&mut self, row: &mut Sentence) -> Result<(), Wrong> {
        let name = name_of(row)?;
        row.wants("holds")?;
        let bytes = Bytes::from_vec(row.bytes()?);
        self.with_file(name, bytes)
    }

    fn with_file(&mut self, name: Name, bytes: Bytes) -> Result<(), Wrong> {
        let none = Seat::first(self.alloc)?;
        let seat = mem::replace(&mut self.seat, none);
        self.seat = seat.with_file(self.alloc, name, bytes)?;
        Ok(())
    }

    /// `process N holds NAME`, `process N lets go`, `process N goes on`
    fn process(&mut self, row: &mut Sentence) -> Result<(), Wrong> {
        let process = row.number_u32()?;
        if row.takes("holds") {
            let name = name_of(row)?;
            return self.with_lock(process, name);
        }
        if row.takes("lets") {
            row.wants("go")?;
            return self.without_lock(process);
        }
        row.wants("goes")?;
        row.wants("on")?;
        self.other(process)
    }

    fn with_lock(&mut self, process: u32, name: Name) -> Result<(), Wrong> {
        let none = Seat::first(self.alloc)?;
        let seat = mem::replace(&mut self.seat, none);
        self.seat = seat.with_lock(self.alloc, process, name)?;
        Ok(())
    }

    fn without_lock(&mut self, process: u32) -> Result<(), Wrong> {
        let none = Seat::first(self.alloc)?;
        let seat = mem::replace(&mut self.seat, none);
        self.seat = seat.without_lock(self.alloc, process)?;
        Ok(())
    }

    fn other(&mut self, process: u32) -> Result<(), Wrong> {
        let none = Seat::first(self.alloc)?;
        let seat = mem::replace(&mut self.seat, none);
        self.seat = seat.other(self.alloc, process)?;
        Ok(())
    }

    /// `stop after N items`, `stop after each item`, counted from the last call on; the next process goes on
    fn stop(&mut self, row: &mut Sentence) -> Result<(), Wrong> {
        let made = self.seat.made();
        let n = place_of_stop(row, &mut self.round, made)?;
        self.stop_at(n)
    }

    fn stop_at(&mut self, n: u64) -> Result<(), Wrong> {
        self.seat = self.seat.stopped(self.alloc, n)?;
        Ok(())
    }

    /// `run WORDS [reads BYTES] ends STATUS [saying TEXT] [prints BYTES]`
    fn run(&mut self, row: &mut Sentence) -> Result<(), Wrong> {
        let words = row.texts()?;
        let input = Input::read(row)?;
        let wanted = Wanted::read(row)?;
        let beyond = self.failures.beyond;
        let ended = self.perform(words, input)?;
        if beyond {
            self.round.over = true;
            return ended.has_to_differ(self.alloc, &wanted);
        }
        ended.has_to_be(self.alloc, &wanted)
    }

    /// Makes a call of the program under the variables, in which fails what rows said.
    fn perform(&mut self, words: Vec<String>, input: Input) -> Result<Ended, Wrong> {
        let alloc = self.alloc;
        let vars = mem::replace(&mut self.vars, Vec::new(alloc));
        let asked = Asked { words, vars };
        let failures = mem::replace(&mut self.failures, Failures::none(alloc));
        let ended = self.perform_asked(&asked, input, failures);
        let Asked { vars, .. } = asked;
        self.vars = vars;
        ended
    }

    fn perform_asked(
        &mut self,
        asked: &Asked,
        input: Input,
        mut failures: Failures,
    ) -> Result<Ended, Wrong> {
        let alloc = self.alloc;
        match input {
            Input::Bytes(bytes) => {
                let reads = mem::replace(&mut failures.reads, Vec::new(alloc));
                let mut source = MemSource::new(Bytes::from_vec(bytes), reads);
                self.perform_on(asked, &mut source, failures)
            }
            Input::Zeros { count, fails } => {
                self.perform_on(asked, &mut Zeros::new(count, fails), failures)
            }
        }
    }

    fn perform_on<S: Source>(
        &mut self,
        asked: &Asked,
        source: &mut S,
        failures: Failures,
    ) -> Result<Ended, Wrong> {
        let are_of_files = failures.are_of_files();
        let Failures {
            calls,
            writes,
            slow,
            tries,
            ..
        } = failures;
        let alloc = self.alloc;
        let mut out = RowSink::new(alloc, writes, slow);
        let status = match &self.folder {
            None => self.seat.run(alloc, asked, calls, tries, source, &mut out),
            Some(folder) => on_real(alloc, folder, asked, are_of_files, source, &mut out)?,
        };
        Ended::of(alloc, status, out.bytes())
    }
}

/// Makes a call over real files, none of whose calls is asked to fail.
fn on_real<S: Source>(
    alloc: Global,
    folder: &Folder,
    asked: &Asked,
    are_of_files: bool,
    source: &mut S,
    out: &mut RowSink,
) -> Result<Status, Wrong> {
    if are_of_files {
        return Err(Wrong::of(alloc, "a call of real files can't be asked to fail"));
    }
    folder.run(asked, source, out)
}

/// `after N items`, or `after each item`, which is the round's number
fn place_of_stop(row: &mut Sentence, round: &mut Round, made: u64) -> Result<u64, Wrong> {
    row.wants("after")?;
    if row.takes("each") {
        row.wants("item")?;
        round.last = made;
        return Ok(round.number);
    }
    let n = row.number()?;
    row.wants("items")?;
    Ok(n)
}
