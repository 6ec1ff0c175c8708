use files_api::{Source, Took};

/// So many zero bytes, and then the end, or a failure in its place.
#[derive(Drop)]
pub struct Zeros {
    left: u64,
    fails: bool,
    faults: u64,
}

impl Zeros {
    /// All of them are left.
    pub fn new(left: u64, fails: bool) -> Zeros {
        Zeros {
            left,
            fails,
            faults: 0,
        }
    }
}

impl Source for Zeros {
    ghost use Rattle.std.specs.Prelude.{None};

    ghost left = { λ _. None };

    ghost faults = { λ s. s.faults };

    fn read(&mut self, into: &mut [u8]) -> Took {
        if self.left == 0 && self.fails {
            self.faults = self.faults.saturating_add(1);
            return Took::Failed;
        }
        let count = self.left.min(into.len() as u64);
        into[..count as usize].fill(0);
        self.left -= count;
        Took::Some(count)
    }
}
