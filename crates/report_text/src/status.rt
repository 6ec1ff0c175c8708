ghost use Rattle.std.specs.Prelude.{◌≡◌};
ghost use Rattle.report_text.specs.Statuses.{code_of};

/// What a call of the program ends with. Its code is the program's exit status.
#[derive(Clone, Copy, Debug, PartialEq, Eq)]
pub enum Status {
    /// The command's answer was given.
    Ok,
    /// No asked store gave a blob.
    Miss,
    /// The words have no reading.
    Usage,
    /// A key isn't 40 hexadecimal digits.
    BadKey,
    /// Another seat held a lock through all tries.
    Busy,
    /// The input failed.
    ReadFault,
    /// The output failed.
    WriteFault,
    /// A call of the files failed.
    FilesFault,
    /// So many bytes are too many.
    TooLarge(u64),
    /// A variable turns the cache off.
    Off,
    /// Memory ran out.
    NoMemory,
    /// A line of `verify` tells of damage.
    Damaged,
    /// Nothing says where the cache stands.
    NoRoot,
    /// A file is no Foz database.
    Foreign,
    /// So many read-only databases are named, too many.
    TooManyReadOnly(u64),
    /// The log breaks a rule at this place, counted from 0.
    BrokenLog(u64),
    /// This line of the input, counted from 1, isn't in the form.
    BadLine(u64),
    /// The store's layout is one that the program can't serve yet.
    NotBuilt,
    /// Of this thread, this operation isn't in the history as it was answered. Both count from 0.
    OtherHistory(u64, u64),
}

impl Status {
    /// The program's exit status. Takes no memory.
    pub fn code(&self) -> u8
        ensures { result ≡ code_of self.now }
    {
        match self {
            Status::Ok => 0,
            Status::Miss => 1,
            Status::Usage => 2,
            Status::BadKey => 3,
            Status::Busy => 4,
            Status::ReadFault => 5,
            Status::WriteFault => 6,
            Status::FilesFault => 7,
            Status::TooLarge(_) => 8,
            Status::Off => 9,
            Status::NoMemory => 10,
            Status::Damaged => 11,
            Status::NoRoot => 12,
            Status::Foreign => 13,
            Status::TooManyReadOnly(_) => 14,
            Status::BrokenLog(_) => 15,
            Status::BadLine(_) => 16,
            Status::NotBuilt => 17,
            Status::OtherHistory(_, _) => 22,
        }
    }
}
