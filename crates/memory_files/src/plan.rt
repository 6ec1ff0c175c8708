ghost use Rattle.std.specs.Prelude.{◌≡◌, [], map};
ghost use Rattle.memory_files.specs.Plans.{fault_for, is_counted as has_number, is_tell as tells_note, stands_for as stands, earliest as the_earliest, put_off as the_put_off, counted};

use file_log::{Call, Note};

/// A call that is to fail.
#[derive(Clone, Copy, Debug, PartialEq, Eq)]
pub struct Fault {
    /// The call's number, counted from 0. A Close and the Tell of an End have none.
    pub call: u64,
    /// A write fails after so many of its bytes, at the latest before its last one.
    pub after: u64,
    /// Whether it is refused memory in place of failing.
    pub memory: bool,
}

/// Which calls are to fail, and how many there were.
#[derive(Debug)]
pub struct Plan {
    pub faults: Vec<Fault>,
    pub calls: u64,
}

impl Drop for Plan {
    fn drop(self) {
        let Plan {
            faults: _faults,
            calls: _,
        } = self;
    }
}

impl Plan {
    /// These are to fail, and no call was made yet.
    pub fn of(faults: Vec<Fault>) -> Plan
        ensures { result ≡ record { faults = faults; calls = 0 } }
    {
        Plan { faults, calls: 0 }
    }

    /// Counts a call, and gives the fault that stands for it.
    pub fn next(&mut self, call: &Call) -> Option<Fault>
        ensures fault { result ≡ fault_for self.old call.now }
        ensures counted { (self.new.faults.items, self.new.calls) ≡ counted self.old call.now }
    {
        if !is_counted(call) {
            return None;
        }
        let number = self.calls;
        let tell = is_tell(call);
        let fault = earliest(&self.faults, number, tell);
        if tell {
            put_off_all(&mut self.faults, number);
        }
        self.calls = number.saturating_add(1);
        fault
    }
}

fn is_counted(call: &Call) -> bool
    ensures { result ≡ has_number call.now }
{
    match call {
        Call::Close { slot: _ } => false,
        Call::Tell(note) => match note {
            Note::End(_) => false,
            _ => true,
        },
        _ => true,
    }
}

fn is_tell(call: &Call) -> bool
    ensures { result ≡ tells_note call.now }
{
    matches!(call, Call::Tell(_))
}

/// The earliest fault that stands for a call of this number.
fn earliest(faults: &[Fault], number: u64, tell: bool) -> Option<Fault>
    ensures { result ≡ the_earliest number tell faults.now }
{
    let mut rest = faults;
    while let [fault, tail @ ..] = rest {
        if stands_for(*fault, number, tell) {
            return Some(*fault);
        }
        rest = tail;
    }
    None
}

fn stands_for(fault: Fault, number: u64, tell: bool) -> bool
    ensures { result ≡ stands number tell fault }
{
    fault.call == number && (!tell || fault.memory)
}

/// What falls on a Tell and is no want of memory stands for the next call.
fn put_off_all(faults: &mut [Fault], number: u64)
    ensures { faults.new ≡ map (the_put_off number) faults.old }
{
    for fault in faults.iter_mut() {
        *fault = put_off(*fault, number);
    }
}

fn put_off(fault: Fault, number: u64) -> Fault
    ensures { result ≡ the_put_off number fault }
{
    if fault.call == number && !fault.memory {
        return Fault {
            call: number.saturating_add(1),
            ..fault
        };
    }
    fault
}
