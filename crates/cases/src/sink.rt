use files_api::{Sink, Took};
use memory_files::MemSink;
use std::alloc::Global;

/// A sink in memory, which takes one byte at a time where it is slow.
#[derive(Drop)]
pub struct RowSink {
    inner: MemSink,
    slow: bool,
}

impl RowSink {
    /// The writes of these numbers fail.
    pub fn new(alloc: Global, faults: Vec<u64>, slow: bool) -> RowSink {
        RowSink {
            inner: MemSink::new(alloc, faults),
            slow,
        }
    }

    /// The bytes that were written.
    pub fn bytes(&self) -> &[u8] {
        self.inner.bytes()
    }
}

impl Sink for RowSink {
    ghost written = { λ s. ⟦<MemSink as Sink>⟧.written s.inner };

    ghost faults = { λ s. ⟦<MemSink as Sink>⟧.faults s.inner };

    fn write(&mut self, bytes: &[u8]) -> Took {
        match bytes {
            [first, _, ..] if self.slow => self.inner.write(&[*first]),
            _ => self.inner.write(bytes),
        }
    }
}
