ghost use Rattle.std.specs.Prelude.{◌≤◌, length};

use crate::failing::Failing;
use cache_types::Bytes;
use files_api::{Source, Took};

/// Bytes in memory, which are read from their front on. A read gives as many as the slice takes. It fails
/// only where [`MemSource::new`] was told so.
#[derive(Debug)]
pub struct MemSource {
    bytes: Bytes,
    at: usize,
    failing: Failing,
    faults: u64,
    ghost within: { at ≤ length bytes },
}

impl Drop for MemSource {
    fn drop(self) {
        let MemSource {
            bytes: _bytes,
            at: _,
            failing: _failing,
            faults: _,
        } = self;
    }
}

impl MemSource {
    ghost use Rattle.std.specs.Prelude.{◌≡◌, Some};
    ghost use Rattle.memory_files.specs.Streams.{failing_reads};

    /// All of these bytes are left. The reads of these numbers fail, counted from 0.
    pub fn new(bytes: Bytes, faults: Vec<u64>) -> MemSource
        ensures left { ⟦<MemSource as Source>⟧.left result ≡ Some bytes }
        ensures faults { ⟦<MemSource as Source>⟧.faults result ≡ 0 }
        ensures failing { failing_reads result ≡ record { numbers = faults; calls = 0 } }
    {
        MemSource {
            bytes,
            at: 0,
            failing: Failing::at(faults),
            faults: 0,
        }
    }
}

impl Source for MemSource {
    ghost use Rattle.std.specs.Prelude.{◌≡◌, ◌↔◌, Some, IsTrue};
    ghost use Rattle.files_api.specs.Streams.{IsRead, HasFault};
    ghost use Rattle.memory_files.specs.Failing.{is_due, counted};
    ghost use Rattle.memory_files.specs.Streams.{left_in, failing_reads};

    ghost left = { λ s. Some (left_in s) };

    ghost faults = { λ s. s.faults };

    fn read(&mut self, into: &mut [u8]) -> Took
        ensures read { IsRead result (Some (left_in self.old)) (Some (left_in self.new)) into.new }
        ensures cause { HasFault (⟦<MemSource as Source>⟧.faults self.old) (⟦<MemSource as Source>⟧.faults self.new) result }
        ensures fails { (result ≡ Took.Failed) ↔ IsTrue (is_due (failing_reads self.old)) }
        ensures counted { failing_reads self.new ≡ counted (failing_reads self.old) }
    {
        if self.failing.next() {
            self.faults = self.faults.saturating_add(1);
            return Took::Failed;
        }
        let rest = &self.bytes.as_slice()[self.at..];
        let count = rest.len().min(into.len());
        into[..count].copy_from_slice(&rest[..count]);
        self.at += count;
        Took::Some(count as u64)
    }
}
