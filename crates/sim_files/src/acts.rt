ghost use Rattle.std.specs.Prelude.{◌≡◌, ◌⊎◌, ◌<◌, ◌^◌, Some, [], true, false};
ghost use Rattle.cache_types.specs.declared.seat.Who.{Who};
ghost use Rattle.file_log.specs.Seat.{MayCall};
ghost use Rattle.file_log.specs.Told.{Grows, Owns};
ghost use Rattle.file_model.specs.Seeing.{seen_of};
ghost use Rattle.sim_files.specs.Seats.{GoesOn, Tells, bytes_in};
ghost use Rattle.sim_world.specs.Stages.{InOrder};

use cache_types::Who;
use file_log::{Call, Reply};
use file_model::Progress;
use sim_world::{Stage, Turn};

/// Whether a turn is that of the seat that calls from outside of the schedule.
fn is_own(turn: &Turn) -> bool {
    matches!(turn, Turn::Own)
}

/// Plays a schedule from a turn on, up to the outsider's own turn, and gives the number of the turn that
/// comes next. A turn for which there is no memory does nothing.
fn play_others(stage: &mut Stage, schedule: &[Turn], next: usize) -> usize
    requires order { InOrder stage.old }
    ensures order { InOrder stage.new }
    ensures outsider { stage.new.outsider ≡ stage.old.outsider }
    ensures grows { (me : Who) → stage.old.outsider ≡ Some me → Grows (Some stage.old.world.past) (Some stage.new.world.past) (Owns me []) }
{
    'turns: for i in next..schedule.len() {
        let turn = &schedule[i];
        if is_own(turn) {
            return i + 1;
        }
        let _played = stage.turn(turn);
    }
    schedule.len()
}

/// Plays the others' turns, where they are due.
fn play_before(stage: &mut Stage, schedule: &[Turn], next: usize, due: bool) -> usize
    requires order { InOrder stage.old }
    ensures order { InOrder stage.new }
    ensures outsider { stage.new.outsider ≡ stage.old.outsider }
    ensures grows { (me : Who) → stage.old.outsider ≡ Some me → Grows (Some stage.old.world.past) (Some stage.new.world.past) (Owns me []) }
    ensures still { due ≡ false → stage.new ≡ stage.old }
{
    if !due {
        return next;
    }
    play_others(stage, schedule, next)
}

/// Whether others' turns are due before an item of a call, of which so many bytes are written: within an
/// operation, and before the first item.
fn is_due(inside: bool, done: u64) -> bool
    ensures { result ≡ true → (inside ≡ true) ⊎ (done ≡ 0) }
{
    inside || done == 0
}

/// What is known of every call: it writes fewer than 2^64 bytes.
fn call_known(call: &Call)
    ensures { bytes_in call.now < 2 ^ 64 }
{
    if let Call::WriteAt { bytes, .. } = call {
        let _count = bytes.len();
    }
}

/// Makes a call of the outsider. Before each item of it others play their turns; but outside of an
/// operation a write goes on without them once it has begun, since want of memory isn't told there.
pub fn answer(stage: &mut Stage, schedule: &[Turn], next: &mut usize, me: Who, call: &Call) -> Reply
    requires order { InOrder stage.old }
    requires outsider { stage.old.outsider ≡ Some me }
    requires may { MayCall (seen_of me stage.old.world.past) call.now }
    requires goes_on { GoesOn me stage.old.world.past }
    ensures order { InOrder stage.new }
    ensures outsider { stage.new.outsider ≡ Some me }
    ensures tells { Tells me call.now result stage.old.world.past stage.new.world.past }
    ensures unfailed { result ≡ Reply.Failed → ⊥ }
{
    call_known(call);
    let inside = stage.world.seen(me).inside;
    let mut done: u64 = 0;
    'items: loop {
        let due = is_due(inside, done);
        *next = play_before(stage, schedule, *next, due);
        match stage.own_step(me, call, done) {
            Progress::More => done += 1,
            Progress::Reply(reply) => return reply,
        }
    }
}
