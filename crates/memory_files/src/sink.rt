ghost use Rattle.std.specs.Prelude.{◌≡◌, Some, [], IsTrue};
ghost use Rattle.files_api.specs.Streams.{IsWritten, HasFault};
ghost use Rattle.memory_files.specs.Failing.{is_due, counted};
ghost use Rattle.memory_files.specs.Streams.{bytes_in, failing_writes};

use crate::failing::Failing;
use files_api::{Sink, Took};
use std::alloc::Global;

/// Bytes in memory, which grow at their end. A write adds all of its bytes. It fails where
/// [`MemSink::new`] was told so, and where there is no memory for them.
#[derive(Debug)]
pub struct MemSink {
    bytes: Vec<u8>,
    failing: Failing,
    faults: u64,
}

impl Drop for MemSink {
    fn drop(self) {
        let MemSink {
            bytes: _bytes,
            failing: _failing,
            faults: _,
        } = self;
    }
}

impl MemSink {
    /// Nothing is written. The writes of these numbers fail, counted from 0.
    pub fn new(alloc: Global, faults: Vec<u64>) -> MemSink
        ensures written { ⟦<MemSink as Sink>⟧.written result ≡ Some [] }
        ensures faults { ⟦<MemSink as Sink>⟧.faults result ≡ 0 }
        ensures failing { failing_writes result ≡ record { numbers = faults; calls = 0 } }
    {
        MemSink {
            bytes: Vec::new(alloc),
            failing: Failing::at(faults),
            faults: 0,
        }
    }

    /// The bytes that were written.
    pub fn bytes(&self) -> &[u8]
        ensures { ⟦<MemSink as Sink>⟧.written self.now ≡ Some result.now }
    {
        self.bytes.as_slice()
    }
}

impl Sink for MemSink {
    ghost use Rattle.std.specs.Prelude.{Some};

    ghost written = { λ s. Some (bytes_in s) };

    ghost faults = { λ s. s.faults };

    fn write(&mut self, bytes: &[u8]) -> Took
        ensures written { IsWritten result (Some (bytes_in self.old)) (Some (bytes_in self.new)) bytes.now }
        ensures cause { HasFault (⟦<MemSink as Sink>⟧.faults self.old) (⟦<MemSink as Sink>⟧.faults self.new) result }
        ensures fails { IsTrue (is_due (failing_writes self.old)) → result ≡ Took.Failed }
        ensures counted { failing_writes self.new ≡ counted (failing_writes self.old) }
    {
        if self.failing.next() || self.bytes.extend_from_slice(bytes).is_err() {
            self.faults = self.faults.saturating_add(1);
            return Took::Failed;
        }
        Took::Some(bytes.len() as u64)
    }
}
