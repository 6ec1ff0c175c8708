ghost use Rattle.std.specs.Prelude.{◌≡◌, length, IsNone};

use crate::first_fault::FirstFault;
use crate::opened::Opened;
use cache_types::Who;
use file_log::{Note, Reply};

/// What a seat of real files is at: its open files, its operation, how many of its calls failed, and the first that did.
#[derive(Drop)]
pub struct Seat {
    pub me: Who,
    slots: [Option<Opened>; 8],
    inside: bool,
    hurt: bool,
    faults: u64,
    /// None as long as no call failed, and where there was no memory for it.
    first: Option<FirstFault>,
    ghost eight: { length slots ≡ 8 },
    ghost none: { faults ≡ 0 → IsNone first },
}

impl Seat {
    ghost use Rattle.std.specs.Prelude.{◌≡◌, ◌<◌, ◌↔◌, ℕ, nat_eq, true, false, [], get_or, slice_set, option_copied, Some, None, IsTrue, if◌then◌else◌};
    ghost use Rattle.cache_types.specs.declared.name.Name.{Name};
    ghost use Rattle.file_log.specs.declared.call.Call.{Call};
    ghost use Rattle.file_log.specs.declared.call.Call.TheVariants.{OpenOld, OpenNew, Close, Tell};
    ghost use Rattle.file_log.specs.declared.reply.Reply.TheVariants.{Done, Failed, NoMemory};
    ghost use Rattle.file_log.specs.Exchange.{MayFail, MayLack};
    ghost use Rattle.file_log.specs.Seat.{IsIdle, IsFilled, IsEmpty};
    ghost use Rattle.host_files.specs.Faults.{risen};
    ghost use Rattle.host_files.specs.Slots.{filled_in, path_of_slot};
    ghost use Rattle.host_files.specs.Seats.{Acts, seen_of};

    /// A seat without open files, outside any operation.
    pub fn new(me: Who) -> Seat
        ensures idle { IsIdle (seen_of result) }
        ensures me { result.me ≡ me }
        ensures faults { result.faults ≡ 0 }
    {
        Seat {
            me,
            slots: [None, None, None, None, None, None, None, None],
            inside: false,
            hurt: false,
            faults: 0,
            first: None,
        }
    }

    /// The open file in a slot.
    pub fn opened(&self, slot: u8) -> &Opened
        requires { IsFilled (filled_in self.now.slots) slot }
        ensures { get_or self.now.slots slot None ≡ Some result.now }
    {
        match &self.slots[slot as usize] {
            Some(opened) => opened,
            None => unreachable!(),
        }
    }

    /// The slot stands for a file.
    pub fn fill(&mut self, slot: u8, opened: Opened)
        requires { IsEmpty (filled_in self.old.slots) slot }
        ensures old { (name : Name) → Acts self.old (OpenOld slot name) Done self.new }
        ensures new { (name : Name) → Acts self.old (OpenNew slot name) Done self.new }
        ensures slots { self.new.slots ≡ slice_set self.old.slots slot (Some opened) }
        ensures paths { (at : ℕ) → path_of_slot self.new.slots at ≡ (if nat_eq slot at then opened.path else path_of_slot self.old.slots at) }
    {
        self.slots[slot as usize] = Some(opened);
    }

    /// The slot is empty, and its file closed.
    pub fn close(&mut self, slot: u8)
        requires { IsFilled (filled_in self.old.slots) slot }
        ensures closed { Acts self.old (Close slot) Done self.new }
        ensures slots { self.new.slots ≡ slice_set self.old.slots slot None }
        ensures paths { (at : ℕ) → path_of_slot self.new.slots at ≡ (if nat_eq slot at then [] else path_of_slot self.old.slots at) }
    {
        self.slots[slot as usize] = None;
    }

    /// A note is kept only as far as it opens or ends an operation.
    pub fn tell(&mut self, note: &Note)
        ensures told { Acts self.old (Tell note.now) Done self.new }
        ensures slots { self.new.slots ≡ self.old.slots }
    {
        match note {
            Note::Begin(_) => self.begin(),
            Note::Evict { .. } => {}
            Note::End(_) => self.end(),
        }
    }

    /// An operation has begun.
    pub fn begin(&mut self)
        ensures { self.new ≡ record self.old { inside = true; hurt = false } }
    {
        self.inside = true;
        self.hurt = false;
    }

    /// The open operation has ended.
    pub fn end(&mut self)
        ensures { self.new ≡ record self.old { inside = false; hurt = false } }
    {
        self.inside = false;
        self.hurt = false;
    }

    /// There was no memory for a call: an open operation is hurt.
    pub fn lack(&mut self) -> Reply
        ensures reply { result ≡ NoMemory }
        ensures seat { self.new ≡ record self.old { hurt = self.old.inside } }
        ensures acts { (call : Call) → MayFail call → MayLack self.old.inside call → Acts self.old call result self.new }
    {
        self.hurt = self.inside;
        Reply::NoMemory
    }

    /// The system refused a call: an open operation is hurt, and the refusal is counted, once.
    pub fn fail(&mut self) -> Reply
        ensures reply { result ≡ Failed }
        ensures slots { self.new.slots ≡ self.old.slots }
        ensures faults { self.new.faults ≡ risen self.old.faults }
        ensures first { self.new.first ≡ self.old.first }
        ensures acts { (call : Call) → MayFail call → Acts self.old call result self.new }
    {
        self.hurt = self.inside;
        self.faults = self.faults.saturating_add(1);
        Reply::Failed
    }

    /// The same of the first call that is refused, which is kept.
    pub fn fail_first(&mut self, first: FirstFault) -> Reply
        requires { self.old.faults ≡ 0 }
        ensures reply { result ≡ Failed }
        ensures slots { self.new.slots ≡ self.old.slots }
        ensures first { self.new.first ≡ Some first }
        ensures acts { (call : Call) → MayFail call → Acts self.old call result self.new }
    {
        let reply = self.fail();
        self.first = Some(first);
        reply
    }

    /// Whether a call was refused so far.
    pub fn has_failed(&self) -> bool
        ensures failed { IsTrue result ↔ (0 < self.now.faults) }
        ensures none { self.now.faults ≡ 0 → IsNone self.now.first }
    {
        self.faults > 0
    }

    /// The first call that was refused.
    pub fn first(&self) -> Option<&FirstFault>
        ensures first { option_copied result ≡ self.now.first }
        ensures none { self.now.faults ≡ 0 → IsNone result }
    {
        self.first.as_ref()
    }
}
