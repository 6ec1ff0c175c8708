ghost use Rattle.std.specs.Prelude.{◌≡◌, ◌≤◌, length, IfOk, is_none, nat_eq};
ghost use Rattle.std.specs.Io.KnownBytes.{ReadConsumes};

use crate::fault::Fault;
use crate::reason::Reason;
use crate::system::again_if_interrupted;
use files_api::{Source, Took};
use std::io::{Input, Read};

/// Reads what comes at once.
fn read_some<T: Read>(reader: &mut T, into: &mut [u8]) -> Result<usize, Fault>
    ensures within { IfOk result (λ n. n ≤ length into.new) }
    ensures bytes { ReadConsumes (T.remaining reader.old) (T.remaining reader.new) result into.new }
{
    for _ in 0..u64::MAX {
        match reader.read(into) {
            Ok(n) => return Ok(n),
            Err(error) => again_if_interrupted(error)?,
        }
    }
    Err(Fault::Failed(Reason::Other))
}

/// Standard input. What is left isn't told, but where a reader tells it, no byte of it is passed over.
///
/// A reading is one call of the system, straight into the slice; it is made again where a signal interrupted it.
/// That it fails is a fault. It takes no memory.
#[derive(Drop)]
pub struct HostSource<R: Input + Drop> {
    reader: R::Reader,
    faults: u64,
    /// Why the first reading that failed did.
    first: Option<Reason>,
    ghost first_told: { is_none first ≡ nat_eq faults 0 },
}

impl<R: Input + Drop> HostSource<R> {
    ghost use Rattle.std.specs.Prelude.{◌≡◌, ◌↔◌, None, Some};
    ghost use Rattle.std.specs.Option.{option_or};
    ghost use Rattle.files_api.specs.Streams.{HasFault};
    ghost use Rattle.files_api.specs.declared.took.Took.TheVariants.{Failed};
    ghost use Rattle.host_files.specs.Faults.{risen, reason_for};

    /// The standard input of a program. Nothing is read before the first reading.
    pub fn new(rt: R) -> HostSource<R>
        ensures { ⟦<HostSource<R> as Source>⟧.faults result ≡ 0 }
    {
        HostSource {
            reader: rt.reader(),
            faults: 0,
            first: None,
        }
    }

    /// Why the first reading that failed did: none exactly while none failed.
    pub fn first_reason(&self) -> Option<Reason>
        ensures { (result ≡ None) ↔ (⟦<HostSource<R> as Source>⟧.faults self.now ≡ 0) }
    {
        self.first
    }

    /// A reading failed: it is counted, and the first is kept.
    fn fail(&mut self, fault: Fault) -> Took
        ensures failed { result ≡ Failed }
        ensures cause { HasFault self.old.faults self.new.faults result }
        ensures faults { self.new.faults ≡ risen self.old.faults }
        ensures first { self.new.first ≡ option_or self.old.first (Some (reason_for fault)) }
        ensures reader { self.new.reader ≡ self.old.reader }
    {
        if self.first.is_none() {
            self.first = Some(fault.reason());
        }
        self.faults = self.faults.saturating_add(1);
        Took::Failed
    }
}

impl<R: Input + Drop> Source for HostSource<R> {
    ghost use Rattle.std.specs.Prelude.{◌≡◌, None, IsSome};
    ghost use Rattle.files_api.specs.Streams.{HasFault, IsRead};
    ghost use Rattle.host_files.specs.Faults.{count_taken};
    ghost use Rattle.host_files.specs.Streams.{TakesNext};

    ghost left = { λ _. None };

    ghost faults = { λ s. s.faults };

    /// Reads the next bytes. A failure is counted once.
    fn read(&mut self, into: &mut [u8]) -> Took
        ensures read { IsRead result None None into.new }
        ensures cause { HasFault self.old.faults self.new.faults result }

        ensures count { self.new.faults ≡ count_taken result self.old.faults }
        ensures first { IsSome self.old.first → self.new.first ≡ self.old.first }
        ensures next { TakesNext result (⟦<R::Reader as Read>⟧.remaining self.old.reader) (⟦<R::Reader as Read>⟧.remaining self.new.reader) into.new }
    {
        if into.is_empty() {
            return Took::Some(0);
        }
        match read_some(&mut self.reader, into) {
            Ok(n) => Took::Some(n as u64),
            Err(fault) => self.fail(fault),
        }
    }
}
