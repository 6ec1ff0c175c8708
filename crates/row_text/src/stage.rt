use crate::sentence::Sentence;
use crate::wrong::Wrong;

/// Where a case is in its rounds. A row that is to be played once for each of several places, as a call that fails
/// or a stop, takes the round's number as the place, and says by `last` how many rounds there are.
#[derive(Clone, Copy, PartialEq, Eq)]
pub struct Round {
    /// Its number, from 0 on.
    pub number: u64,
    /// The number of the last one.
    pub last: u64,
    /// Whether no more rows of this round are played.
    pub over: bool,
}

impl Round {
    /// The round of this number, which is the last as long as no row says otherwise.
    pub fn of(number: u64) -> Round {
        Round {
            number,
            last: 0,
            over: false,
        }
    }
}

/// What the rows of a program of tests do. A stage is made anew for each round of a case.
pub trait Stage: Sized + Drop {
    /// The stage at the begin of a round.
    fn begin(rt: &HostRuntime, number: u64) -> Result<Self, Wrong>;

    /// Does what a row says. The first word is taken already, and none may be left.
    fn act(&mut self, verb: &str, row: &mut Sentence) -> Result<(), Wrong>;

    /// The round that is played.
    fn round(&self) -> Round;
}
