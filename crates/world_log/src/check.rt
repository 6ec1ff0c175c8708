ghost use Rattle.std.specs.Prelude.{◌≡◌, ◌∷◌, [], true, IfOk, OnOk};
ghost use Rattle.file_log.specs.Effect.{applied};
ghost use Rattle.file_log.specs.Legal.{IsLegal, Legal};
ghost use Rattle.file_log.specs.State.{first, state_of, disk_of};
ghost use Rattle.file_model.specs.Held.{told};
ghost use Rattle.seat_rules.specs.Kinds.{is_entry};
ghost use Rattle.log_summary.specs.Summary.{Summary, summed};
ghost use Rattle.rule_checks.specs.Tests.{keep_bytes};
ghost use Rattle.world_log.specs.Ledgers.{Carries};
ghost use Rattle.world_log.specs.Verdicts.{IsVerdict, IsFirstBreak};

use crate::ledger::Ledger;
use crate::verdict::Verdict;
use cache_types::NoMemory;
use file_log::LogItem;
use file_model::{World, first_illegal};
use std::alloc::Global;

/// The verdict on a log that begins on an empty disk.
///
/// `IllegalAt` exactly where an item can't come at its place; its number is the first such. Else
/// `BrokenAt` exactly where an item of a seat breaks one of the rules among seats, or is a hit of what
/// wasn't put, or the answer of a lookup that doesn't find what is promised to it; its number is the first
/// such. Else `Good`. No hit is unlicensed and no lookup fails to find before a rule is broken
/// (`layout_rules::all_are_served`), so legality and the rules alone are tested. What the rules ask of the
/// log's past is carried along it, not made anew at each place. A rename or a removal of an entry reads
/// its file once for each address that puts under its root and key began with, another item at none.
///
/// # Errors
///
/// Memory ran out.
pub fn check_log(alloc: Global, log: &[LogItem]) -> Result<Verdict, NoMemory>
    ensures { IfOk result (IsVerdict log.now) }
{
    match first_illegal(&World::new(alloc), log)? {
        Some(place) => Ok(Verdict::IllegalAt(place)),
        None => check_rules(alloc, log),
    }
}

/// The verdict on a log that can be.
fn check_rules(alloc: Global, log: &[LogItem]) -> Result<Verdict, NoMemory>
    requires { Legal (first []) log.now }
    ensures { IfOk result (IsVerdict log.now) }
{
    match first_broken(alloc, log)? {
        None => Ok(Verdict::Good),
        Some(place) => Ok(Verdict::BrokenAt(place)),
    }
}

/// The number of the first item that breaks a rule, in a log that can be; `None` where each keeps them.
fn first_broken(alloc: Global, log: &[LogItem]) -> Result<Option<u64>, NoMemory>
    requires { Legal (first []) log.now }
    ensures { IfOk result (IsFirstBreak log.now) }
{
    let mut world = World::new(alloc);
    let mut ledger = Ledger::new(alloc);
    for (index, item) in log.iter().enumerate() {
        if !ledger.passes(world.tables(), item)? {
            return Ok(Some(index as u64));
        }
        go_on(&mut world, &mut ledger, item)?;
    }
    Ok(None)
}

/// Does an item again in a world, and goes on over it.
fn go_on(world: &mut World, ledger: &mut Ledger, item: &LogItem) -> Result<(), NoMemory>
    requires { IsLegal (state_of world.old.past) item.now }
    ensures world { OnOk result (world.new ≡ told world.old (item.now ∷ [])) }
    ensures ledger { OnOk result ((s : Summary) → Carries ledger.old s → disk_of world.old.past ≡ s.state.disk → keep_bytes is_entry s.had s.state.disk (applied s.state.disk item.now) ≡ true → Carries ledger.new (summed s item.now)) }
{
    ledger.follow_names(world.tables(), item)?;
    world.repeat(item)?;
    ledger.follow(world.tables(), item)?;
    Ok(())
}
