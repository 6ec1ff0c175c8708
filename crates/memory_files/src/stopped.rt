ghost use Rattle.std.specs.Prelude.{◌≡◌, ◌↔◌, Some, [], IfOk, IsTrue};
ghost use Rattle.memory_files.specs.Seats.{GoesOn};
ghost use Rattle.file_log.specs.Log.{own, is_own as the_own, seat_of as the_seat};

use crate::files::MemFiles;
use cache_types::{NoMemory, Who};
use file_log::LogItem;
use file_model::World;
use files_api::Files;

impl MemFiles {
    ghost use Rattle.file_log.specs.Seat.{IsIdle};
    ghost use Rattle.memory_files.specs.Files.{world_of, plan_of};
    ghost use Rattle.memory_files.specs.Seats.{seen_in};
    ghost use Rattle.memory_files.specs.Stopped.{stopped_at, MayFollow};

    /// Files after a stop: the first `n` items of the log, then the stop of this seat's process, in a world
    /// of their own. The seat `next` calls them. No call is to fail.
    /// [`may_follow`](MemFiles::may_follow) tests the condition.
    pub fn stopped_after(&self, n: u64, next: Who) -> Result<MemFiles, NoMemory>
        requires { MayFollow n (⟦<MemFiles as Files>⟧.me self.now) next (world_of self.now) }
        ensures world { IfOk result (λ f. world_of f ≡ stopped_at n (⟦<MemFiles as Files>⟧.me self.now).process (world_of self.now)) }
        ensures history { IfOk result (λ f. ⟦<MemFiles as Files>⟧.history f ≡ Some (stopped_at n (⟦<MemFiles as Files>⟧.me self.now).process (world_of self.now)).past) }
        ensures me { IfOk result (λ f. ⟦<MemFiles as Files>⟧.me f ≡ next) }
        ensures seen { IfOk result (λ f. ⟦<MemFiles as Files>⟧.seen f ≡ seen_in next (world_of f).past) }
        ensures idle { IfOk result (λ f. IsIdle (⟦<MemFiles as Files>⟧.seen f)) }
        ensures faults { IfOk result (λ f. ⟦<MemFiles as Files>⟧.faults f ≡ 0) }
        ensures calm { IfOk result (λ f. (plan_of f).faults.items ≡ []) }
    {
        let mut world = self.world().first_items(n)?;
        world.stop(self.seat().process)?;
        MemFiles::on(world.alloc(), next, world)
    }

    /// Whether the seat `next` can go on after the first `n` items of the log and a stop of this seat's
    /// process.
    pub fn may_follow(&self, n: u64, next: Who) -> Result<bool, NoMemory>
        ensures { IfOk result (λ may. IsTrue may ↔ MayFollow n (⟦<MemFiles as Files>⟧.me self.now) next (world_of self.now)) }
    {
        if n > self.world().log_len() || next.process == self.seat().process {
            return Ok(false);
        }
        let first = self.world().first_items(n)?;
        may_begin(&first, next)
    }
}

/// Whether a seat of a process that goes on has no item in the log of a world.
fn may_begin(world: &World, who: Who) -> Result<bool, NoMemory>
    ensures { IfOk result (λ may. IsTrue may ↔ ((own who world.now.past.log ≡ []) × GoesOn who world.now.past)) }
{
    if world.is_halted(who.process) {
        return Ok(false);
    }
    let log = world.log()?;
    Ok(has_none(&log, who))
}

/// Whether a seat has none of these items.
fn has_none(log: &[LogItem], who: Who) -> bool
    ensures { IsTrue result ↔ (own who log.now ≡ []) }
{
    let mut rest = log;
    while let [item, tail @ ..] = rest {
        if is_own(item, who) {
            return false;
        }
        rest = tail;
    }
    true
}

/// Whether an item is a seat's.
fn is_own(item: &LogItem, me: Who) -> bool
    ensures { result ≡ the_own me item.now }
{
    match seat_of(item) {
        None => false,
        Some(who) => me.is(who),
    }
}

/// The seat whose item it is, if it is one's.
fn seat_of(item: &LogItem) -> Option<Who>
    ensures { result ≡ the_seat item.now }
{
    match item {
        LogItem::Taken { who, ticket: _ } => Some(*who),
        LogItem::Begin { who, request: _ } => Some(*who),
        LogItem::Did {
            who,
            call: _,
            reply: _,
        } => Some(*who),
        LogItem::Byte {
            who,
            slot: _,
            at: _,
            value: _,
        } => Some(*who),
        LogItem::Failed { who, memory: _ } => Some(*who),
        LogItem::Evict {
            who,
            store: _,
            driver: _,
            key: _,
        } => Some(*who),
        LogItem::End { who, answer: _ } => Some(*who),
        _ => None,
    }
}
