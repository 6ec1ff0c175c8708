ghost use Rattle.std.specs.Prelude.{◌≡◌};
ghost use Rattle.cache_types.specs.Seats.{same_seat};

/// A seat: one activity that makes file calls, a thread or a process with one thread. A process has
/// one or more seats.
#[derive(Clone, Copy, Debug, PartialEq, Eq, Hash)]
pub struct Who {
    pub process: u32,
    pub seat: u32,
}

impl Who {
    /// Whether two seats are one.
    pub fn is(self, other: Who) -> bool
        ensures { result ≡ same_seat self other }
    {
        self.process == other.process && self.seat == other.seat
    }
}
