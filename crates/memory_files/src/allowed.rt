ghost use Rattle.std.specs.Prelude.{◌≡◌};
ghost use Rattle.file_log.specs.Seat.{course_of};
ghost use Rattle.file_log.specs.State.{disk_of};
ghost use Rattle.memory_files.specs.Allowed.{is_empty as no_file, slots_fit as the_slots_fit, is_calm as the_calm, is_allowed as allowed};
ghost use Rattle.memory_files.specs.Seats.{is_filled as some_file};

use cache_types::Who;
use file_log::Call;
use file_model::World;

/// Whether a seat may make this call.
pub fn is_allowed(world: &World, me: Who, call: &Call) -> bool
    ensures { result ≡ allowed me world.now.past call.now }
{
    slots_fit(world, me, call) && is_calm(world.seen(me).hurt, call)
}

fn slots_fit(world: &World, me: Who, call: &Call) -> bool
    ensures { result ≡ the_slots_fit (disk_of world.now.past) me call.now }
{
    match call {
        Call::OpenOld { slot, name: _ } => is_empty(world, me, *slot),
        Call::OpenNew { slot, name: _ } => is_empty(world, me, *slot),
        Call::TryLock { slot } => is_filled(world, me, *slot),
        Call::Length { slot } => is_filled(world, me, *slot),
        Call::ReadAt { slot, at: _, n: _ } => is_filled(world, me, *slot),
        Call::WriteAt {
            slot,
            at: _,
            bytes: _,
        } => is_filled(world, me, *slot),
        Call::Cut { slot, n: _ } => is_filled(world, me, *slot),
        Call::Close { slot } => is_filled(world, me, *slot),
        _ => true,
    }
}

fn is_empty(world: &World, me: Who, slot: u8) -> bool
    ensures { result ≡ no_file (disk_of world.now.past) me slot }
{
    slot < 8 && !world.is_open(me, slot)
}

fn is_filled(world: &World, me: Who, slot: u8) -> bool
    ensures { result ≡ some_file (disk_of world.now.past) me slot }
{
    slot < 8 && world.is_open(me, slot)
}

fn is_calm(hurt: bool, call: &Call) -> bool
    ensures { result ≡ the_calm hurt call.now }
{
    match call {
        Call::Close { slot: _ } => true,
        Call::Tell(_) => true,
        _ => !hurt,
    }
}
