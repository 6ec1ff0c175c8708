//! The puts that began under one address.

ghost use Rattle.std.specs.Prelude.{◌≡◌, nat_eq, Bool, ◌||◌, reverse, Some, OnOk, OnErr};
ghost use Rattle.std.specs.Cmp.Lexicographic.{pointwise};
ghost use Rattle.std.specs.List.{list_any};
ghost use Rattle.log_summary.specs.Summary.{BegunPut as ThePut};
ghost use Rattle.rule_checks.specs.Tests.{same_blob};
ghost use Rattle.world_log.specs.Grouping.{put_under, any_put};

use crate::address::Address;
use cache_types::{Bytes, NoMemory};
use std::alloc::Global;

/// The puts that began under one address, of which there is one at least.
#[derive(Debug)]
pub struct PutsAt {
    pub at: Address,
    /// What the first of them puts.
    pub first: Bytes,
    /// What the others put, in the order of their Begins.
    pub later: Vec<Bytes>,
}

impl Drop for PutsAt {
    fn drop(self) {
        let PutsAt {
            at: _at,
            first: _first,
            later: _later,
        } = self;
    }
}

/// Whether one of these is the blob. Looks at the last first.
fn is_among(blobs: &[Bytes], blob: &Bytes) -> bool
    ensures { result ≡ list_any (pointwise nat_eq blob.now) (reverse blobs.now) }
{
    blobs.iter().rev().any(|other| *blob == *other)
}

impl PutsAt {
    /// One put. Takes no memory.
    pub fn new(alloc: Global, at: Address, blob: Bytes) -> PutsAt
        ensures { (test : ThePut → Bool) → any_put test result ≡ test (put_under at blob) }
    {
        PutsAt {
            at,
            first: blob,
            later: Vec::new(alloc),
        }
    }

    /// One put more. A refusal adds none.
    pub fn push(&mut self, blob: Bytes) -> Result<(), NoMemory>
        ensures ok { OnOk result ((test : ThePut → Bool) → any_put test self.new ≡ (any_put test self.old || test (put_under self.old.at blob))) }
        ensures err { OnErr result ((test : ThePut → Bool) → any_put test self.new ≡ any_put test self.old) }
    {
        self.later.push(blob)?;
        Ok(())
    }

    /// Whether one of them puts this blob. Looks at the latest first.
    pub fn has(&self, blob: &Bytes) -> bool
        ensures { result ≡ any_put (λ p. same_blob (Some blob.now) (Some p.blob)) self.now }
    {
        is_among(&self.later, blob) || *blob == self.first
    }
}
