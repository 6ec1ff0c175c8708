ghost use Rattle.std.specs.Prelude.{◌≤◌, ◌+◌, ◌^◌, length};

use cache_types::{Bytes, Who};
use file_log::LogItem;

/// Bytes that a seat wrote one after another, each at a place of 64 bits.
#[derive(Debug)]
pub struct Run {
    pub who: Who,
    pub slot: u8,
    pub at: u64,
    pub bytes: Bytes,
    ghost fits: { at + length bytes ≤ 2 ^ 64 },
}

impl Drop for Run {
    fn drop(self) {
        let Run {
            who: _,
            slot: _,
            at: _,
            bytes: _bytes,
        } = self;
    }
}

/// What a log keeps as one.
#[derive(Debug)]
pub enum Piece {
    One(LogItem),
    Written(Run),
}

impl Drop for Piece {
    fn drop(self) {
        match self {
            Piece::One(_one) => {}
            Piece::Written(_written) => {}
        }
    }
}
