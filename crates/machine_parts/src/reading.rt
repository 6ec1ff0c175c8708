ghost use Rattle.std.specs.Prelude.{◌≡◌, None, nat_lt, if◌then◌else◌};

use crate::open::Open;
use crate::part::{After, Part};
use cache_types::{Bytes, Name};
use file_log::{Call, Reply};

/// A file that may be there: its name, the slot that it is opened in, and how long it is at most where it is read.
pub trait OldFile {
    ghost use Rattle.std.specs.Prelude.{◌≡◌, ◌<◌, ℕ};
    ghost use Rattle.cache_types.specs.declared.name.Name.{Name};

    /// The slot, one of 0 to 3.
    const SLOT: u8;

    ghost SLOT: { ℕ };

    /// No longer file is read, in bytes.
    const LONGEST: u64;

    ghost LONGEST: { ℕ };

    /// The file's name.
    ghost name: { Self → Name };

    /// The file's name.
    fn name(&self) -> Name
        ensures { result ≡ name self.now };

    ghost small: { SLOT < 4 };
}

/// How far a reading has come.
#[derive(Debug, Drop)]
pub enum Read {
    /// It asks for the file.
    Opening,
    /// It asks for the file's length.
    Measuring,
    /// It asks for all bytes of the file, so many.
    Taking(u64),
    /// It closes the file; this is what it gives.
    Closing(Option<Bytes>),
}

/// Reads a whole file and closes it: its bytes, or `None` where there is no such file, or it is longer than the longest.
#[derive(Debug, Drop)]
pub struct Reading<L> {
    file: L,
    base: Open,
    stage: Read,
}

impl<L> Reading<L> {
    /// A reading of a file, with these slots open besides.
    pub fn new(file: L, base: Open) -> Reading<L>
        ensures { result ≡ record { file = file; base = base; stage = Read.Opening } }
    {
        Reading {
            file,
            base,
            stage: Read::Opening,
        }
    }
}

/// What follows on a file's length.
fn measured(length: u64, longest: u64) -> Read
    ensures { result ≡ (if nat_lt longest length then Read.Closing None else Read.Taking length) }
{
    if length > longest {
        Read::Closing(None)
    } else {
        Read::Taking(length)
    }
}

impl<L: OldFile + Drop> Part for Reading<L> {
    ghost use Rattle.machine_parts.specs.Reading.{reading_right, reading_asks, reading_next, reading_slots, reading_left};
    ghost use Rattle.machine_parts.specs.ReadingLaws.{reading_fits, reading_bears, reading_goes_on};
    ghost use Rattle.std.specs.Prelude.{refl, ◌≡◌};

    type Out = Option<Bytes>;

    ghost right = { reading_right L.SLOT };

    ghost asks = { reading_asks L.SLOT L.name };

    ghost asked = { λ m. m };

    ghost fed = { λ m reply r. r ≡ reading_next L.LONGEST m reply };

    ghost slots = { reading_slots L.SLOT };

    ghost left = { reading_left };

    fn next(&mut self) -> Call {
        match &self.stage {
            Read::Opening => Call::OpenOld {
                slot: L::SLOT,
                name: self.file.name(),
            },
            Read::Measuring => Call::Length { slot: L::SLOT },
            Read::Taking(length) => Call::ReadAt {
                slot: L::SLOT,
                at: 0,
                n: *length,
            },
            Read::Closing(_) => Call::Close { slot: L::SLOT },
        }
    }

    fn feed(self, reply: Reply) -> After<Self, Option<Bytes>> {
        let file = self.file;
        let base = self.base;
        let stage = match (self.stage, reply) {
            (Read::Opening, Reply::Done) => Read::Measuring,
            (Read::Measuring, Reply::Number(length)) => measured(length, L::LONGEST),
            (Read::Taking(_), Reply::Got(bytes)) => Read::Closing(Some(bytes)),
            (Read::Closing(given), _) => return After::Over(base, given),
            (_, _) => return After::Over(base, None),
        };
        After::More(Reading { file, base, stage })
    }

    fn slots(&self) -> Open {
        match &self.stage {
            Read::Opening => self.base,
            _ => self.base.opened(L::SLOT, true),
        }
    }

    ghost still = { λ m. refl };

    ghost fits = { reading_fits L.SLOT L.name L.small };

    ghost bears = { reading_bears L.SLOT L.name L.small };

    ghost goes_on = { reading_goes_on L.SLOT L.LONGEST L.name L.small };
}
