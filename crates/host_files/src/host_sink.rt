ghost use Rattle.std.specs.Prelude.{◌≡◌, is_none, nat_eq};

use crate::fault::Fault;
use crate::reason::Reason;
use crate::system::again_if_interrupted;
use files_api::{Sink, Took};
use std::io::Print;

/// Standard output. What was written isn't told.
///
/// A write is one call of the system, which takes as many bytes as it likes; it is made again where a signal
/// interrupted it. That it fails, or takes none of some bytes, is a fault.
#[derive(Drop)]
pub struct HostSink<R: Print + Drop> {
    rt: R,
    faults: u64,
    /// Why the first write that failed did.
    first: Option<Reason>,
    ghost first_told: { is_none first ≡ nat_eq faults 0 },
}

impl<R: Print + Drop> HostSink<R> {
    ghost use Rattle.std.specs.Prelude.{◌≡◌, ◌≤◌, ◌↔◌, length, None, Some, IfOk};
    ghost use Rattle.std.specs.Option.{option_or};
    ghost use Rattle.files_api.specs.Streams.{HasFault};
    ghost use Rattle.files_api.specs.declared.took.Took.TheVariants.{Failed};
    ghost use Rattle.host_files.specs.Faults.{risen, reason_for};

    /// The standard output of a program.
    pub fn new(rt: R) -> HostSink<R>
        ensures { ⟦<HostSink<R> as Sink>⟧.faults result ≡ 0 }
    {
        HostSink {
            rt,
            faults: 0,
            first: None,
        }
    }

    /// Why the first write that failed did: none exactly while none failed.
    pub fn first_reason(&self) -> Option<Reason>
        ensures { (result ≡ None) ↔ (⟦<HostSink<R> as Sink>⟧.faults self.now ≡ 0) }
    {
        self.first
    }

    /// Writes what the system takes at once. Nothing of some bytes is a fault.
    fn put(&self, bytes: &[u8]) -> Result<usize, Fault>
        ensures some { IfOk result (λ n. 1 ≤ n) }
        ensures within { IfOk result (λ n. n ≤ length bytes.now) }
    {
        for _ in 0..u64::MAX {
            match self.rt.write_some(bytes) {
                Ok(0) => return Err(Fault::Failed(Reason::NothingWritten)),
                Ok(n) => return Ok(n),
                Err(error) => again_if_interrupted(error)?,
            }
        }
        Err(Fault::Failed(Reason::Other))
    }

    /// A write failed: it is counted, and the first is kept.
    fn fail(&mut self, fault: Fault) -> Took
        ensures failed { result ≡ Failed }
        ensures cause { HasFault self.old.faults self.new.faults result }
        ensures faults { self.new.faults ≡ risen self.old.faults }
        ensures first { self.new.first ≡ option_or self.old.first (Some (reason_for fault)) }
    {
        if self.first.is_none() {
            self.first = Some(fault.reason());
        }
        self.faults = self.faults.saturating_add(1);
        Took::Failed
    }
}

impl<R: Print + Drop> Sink for HostSink<R> {
    ghost use Rattle.std.specs.Prelude.{◌≡◌, None, IsSome};
    ghost use Rattle.files_api.specs.Streams.{HasFault, IsWritten};
    ghost use Rattle.host_files.specs.Faults.{count_taken};

    ghost written = { λ _. None };

    ghost faults = { λ s. s.faults };

    /// Writes the next bytes. A failure is counted once.
    fn write(&mut self, bytes: &[u8]) -> Took
        ensures written { IsWritten result None None bytes.now }
        ensures cause { HasFault self.old.faults self.new.faults result }

        ensures count { self.new.faults ≡ count_taken result self.old.faults }
        ensures first { IsSome self.old.first → self.new.first ≡ self.old.first }
    {
        if bytes.is_empty() {
            return Took::Some(0);
        }
        match self.put(bytes) {
            Ok(n) => Took::Some(n as u64),
            Err(fault) => self.fail(fault),
        }
    }
}
