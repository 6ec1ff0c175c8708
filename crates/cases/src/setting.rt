use memory_files::Fault;
use row_text::{Round, Sentence, Wrong};
use std::alloc::Global;

/// The words and the variables of a call of the program.
#[derive(Drop)]
pub struct Asked {
    /// The words behind the program's name.
    pub words: Vec<String>,
    /// Each variable's name and value.
    pub vars: Vec<(String, String)>,
}

/// What a call of the program reads.
#[derive(Drop)]
pub enum Input {
    /// These bytes.
    Bytes(Vec<u8>),
    /// So many zeros, and then the end, or a failure in its place.
    Zeros {
        /// How many.
        count: u64,
        /// Whether a failure comes in place of the end.
        fails: bool,
    },
}

impl Input {
    /// `[reads BYTES]`, `reads endless zeros`, `reads failing zeros N`
    pub fn read(row: &mut Sentence) -> Result<Input, Wrong> {
        if !row.takes("reads") {
            return Ok(Input::Bytes(Vec::new(row.alloc())));
        }
        if row.takes("endless") {
            row.wants("zeros")?;
            return Ok(Input::zeros(u64::MAX, false));
        }
        if row.takes("failing") {
            row.wants("zeros")?;
            return Ok(Input::zeros(row.number()?, true));
        }
        Ok(Input::Bytes(row.bytes()?))
    }

    fn zeros(count: u64, fails: bool) -> Input {
        Input::Zeros { count, fails }
    }
}

/// What is to fail in the next call of the program.
#[derive(Drop)]
pub struct Failures {
    /// Its file calls.
    pub calls: Vec<Fault>,
    /// The numbers of the readings.
    pub reads: Vec<u64>,
    /// The numbers of the writings.
    pub writes: Vec<u64>,
    /// Whether the output takes one byte at a time.
    pub slow: bool,
    /// So many tries of a lock find it held.
    pub tries: u64,
    /// Whether the call has to end otherwise than its row says, since no call is left that could fail.
    pub beyond: bool,
}

impl Failures {
    /// Nothing fails.
    pub fn none(alloc: Global) -> Failures {
        Failures {
            calls: Vec::new(alloc),
            reads: Vec::new(alloc),
            writes: Vec::new(alloc),
            slow: false,
            tries: 0,
            beyond: false,
        }
    }

    /// `fail read N`, `fail write N`, `fail call N [after N bytes] [for memory]`, `fail each of N calls [..]`
    pub fn add(&mut self, row: &mut Sentence, round: &mut Round) -> Result<(), Wrong> {
        if row.takes("read") {
            self.reads.push(row.number()?)?;
            return Ok(());
        }
        if row.takes("write") {
            self.writes.push(row.number()?)?;
            return Ok(());
        }
        let call = self.number_of_call(row, round)?;
        self.calls.push(fault(call, row)?)?;
        Ok(())
    }

    /// `call N`, or `each of N calls`, which is the round's number
    fn number_of_call(&mut self, row: &mut Sentence, round: &mut Round) -> Result<u64, Wrong> {
        if row.takes("call") {
            return row.number();
        }
        row.wants("each")?;
        row.wants("of")?;
        round.last = row.number()?;
        row.wants("calls")?;
        self.beyond = round.number == round.last;
        Ok(round.number)
    }

    /// `lock held for N tries`
    pub fn hold(&mut self, row: &mut Sentence) -> Result<(), Wrong> {
        row.wants("held")?;
        row.wants("for")?;
        self.tries = row.number()?;
        row.wants("tries")
    }

    /// Whether a file call is to fail, or a lock held, which real files can't be asked for.
    pub fn are_of_files(&self) -> bool {
        self.tries > 0 || !self.calls.is_empty()
    }
}

/// `[after N bytes] [for memory]`
fn fault(call: u64, row: &mut Sentence) -> Result<Fault, Wrong> {
    let after = bytes_before(row)?;
    let memory = row.takes("for");
    if memory {
        row.wants("memory")?;
    }
    Ok(Fault {
        call,
        after,
        memory,
    })
}

fn bytes_before(row: &mut Sentence) -> Result<u64, Wrong> {
    if !row.takes("after") {
        return Ok(0);
    }
    let after = row.number()?;
    row.wants("bytes")?;
    Ok(after)
}
