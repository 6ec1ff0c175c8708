ghost use Rattle.std.specs.Prelude.{◌≡◌, ◌↔◌, ◌∷◌, None, IsTrue, OnOk, OnErr, if◌then◌else◌};
ghost use Rattle.cache_types.specs.Seats.{same_seat};
ghost use Rattle.cache_types.specs.declared.seat.Who.{Who};
ghost use Rattle.sim_world.specs.Played.{first_of};
ghost use Rattle.sim_world.specs.Tables.{failing_of as the_failing};

use cache_types::{NoMemory, Who};

/// A failure that waits for a seat's next call, with `memory` one for want of memory.
#[derive(Clone, Copy, Debug, PartialEq, Eq)]
pub struct Failing {
    pub who: Who,
    pub memory: bool,
}

/// The failure that waits for a seat's next call.
pub fn failing_of(failing: &[Failing], who: Who) -> Option<bool>
    ensures { result ≡ the_failing failing.now who }
{
    let mut rest = failing;
    while let [first, tail @ ..] = rest {
        if who.is(first.who) {
            return Some(first.memory);
        }
        rest = tail;
    }
    None
}

/// A failure waits for a seat's next call from now on, unless one does already. A refusal changes nothing.
pub fn fail_next(failing: &mut Vec<Failing>, who: Who, memory: bool) -> Result<(), NoMemory>
    ensures ok { OnOk result ((w : Who) → the_failing failing.new.items w ≡ (if same_seat w who then first_of (the_failing failing.old.items who) memory else the_failing failing.old.items w)) }
    ensures err { OnErr result (failing.new.items ≡ failing.old.items) }
{
    if failing_of(failing, who).is_some() {
        return Ok(());
    }
    failing.insert(0, Failing { who, memory })?;
    Ok(())
}

/// No failure waits for the seat's next call any more.
pub fn use_up(failing: &mut Vec<Failing>, who: Who)
    ensures { (w : Who) → the_failing failing.new.items w ≡ (if same_seat w who then None else the_failing failing.old.items w) }
{
    failing.retain(|waiting| !waiting.who.is(who));
}
