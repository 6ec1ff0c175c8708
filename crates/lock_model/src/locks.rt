ghost use Rattle.std.specs.Prelude.{◌≡◌, ◌↔◌, ℕ, nat_eq, OnErr, IfOk, IsTrue, if◌then◌else◌};
ghost use Rattle.std.specs.Ordering.{nat_cmp};
ghost use Rattle.std.specs.FinMap as map;
ghost use Rattle.lock_model.specs.Holders.{freed_of, IsOthers};

use crate::holders::{Group, Holders};
use crate::memory::NoMemory;
use std::alloc::Global;
use std::marker::Model;

/// Which files are locked, and by whom, each by its number: at most one holder a file. Contracts see the
/// map from the files that are held to their holders.
#[derive(Debug, Drop)]
pub struct Locks {
    holders: Holders<u64>,
}

impl Model for Locks {
    ghost use Rattle.std.specs.Prelude.{ℕ};
    ghost use Rattle.std.specs.Ordering.{nat_cmp};
    ghost use Rattle.std.specs.FinMap as map;
    ghost use Rattle.std.specs.Coded.{coded_ℕ};

    ghost Value = { map.FinMap nat_cmp ℕ };

    ghost coded = { map.code coded_ℕ coded_ℕ };

    ghost view = { λ l. l.holders };
}

impl Group<u64> for u64 {
    ghost has = { nat_eq };

    fn has(&self, holder: &u64) -> bool {
        *self == *holder
    }
}

impl Locks {
    /// No lock is held. Takes no memory.
    pub fn new(alloc: Global) -> Locks
        ensures { result ≡ map.empty }
    {
        Locks {
            holders: Holders::new(alloc),
        }
    }

    /// The holder of a file.
    pub fn holder_of(&self, file: u64) -> Option<u64>
        ensures { result ≡ map.get self.now file }
    {
        self.holders.holder_of(file)
    }

    /// Takes the lock of a file for a holder; false exactly where another holder has it. Where it answers
    /// false or `NoMemory`, nothing has changed.
    pub fn take(&mut self, holder: u64, file: u64) -> Result<bool, NoMemory>
        ensures others { IfOk result (λ taken. IsTrue taken ↔ ¬ IsOthers holder (map.get self.old file)) }
        ensures new { IfOk result (λ taken. self.new ≡ (if taken then map.insert self.old file holder else self.old)) }
        ensures err { OnErr result (self.new ≡ self.old) }
    {
        if let Some(other) = self.holders.holder_of(file) {
            return Ok(other == holder);
        }
        self.holders.give(file, holder)?;
        Ok(true)
    }

    /// Frees a file. Takes no memory.
    pub fn free(&mut self, file: u64)
        ensures { self.new ≡ map.remove self.old file }
    {
        self.holders.free(file);
    }

    /// Frees all that a holder has. Takes no memory.
    pub fn free_all(&mut self, holder: u64)
        ensures { (file : ℕ) → map.get self.new file ≡ freed_of (nat_eq holder) (map.get self.old file) }
    {
        self.holders.free_all(&holder);
    }
}
