use crate::scene::Scene;
use cache_types::Text;
use log_rows::add_copies;
use log_text::{blob_of, item_of, process_of, request_of, who_of};
use row_text::{Sentence, Wrong, root_of};
use schedule_draws::schedule;
use sim_world::Turn;

/// How many turns a drawn schedule has where a row says no number.
const USUAL_TURNS: u64 = 400;

/// Behind so many drawn turns the own seat has one.
const OWN_EACH: u64 = 3;

/// The most turns or items that a row may ask for.
const MOST: u64 = 20_000;

/// Takes `[N times]`, where `round` may stand for the round's number.
fn times(row: &mut Sentence, round: u64) -> Result<u64, Wrong> {
    if row.is_empty() {
        return Ok(1);
    }
    let count = number(row, round)?;
    row.wants("times")?;
    Ok(count.min(MOST))
}

/// Takes a number, where `round` may stand for the round's.
pub fn number(row: &mut Sentence, round: u64) -> Result<u64, Wrong> {
    if row.takes("round") {
        return Ok(round);
    }
    row.number()
}

/// `seat P.S REQUEST`
pub fn start(scene: &mut Scene, row: &mut Sentence) -> Result<(), Wrong> {
    let who = who_of(row)?;
    let request = request_of(row)?;
    scene.add(Turn::Start { who, request })
}

/// `step P.S [N times]`
pub fn step(scene: &mut Scene, row: &mut Sentence, round: u64) -> Result<(), Wrong> {
    let who = who_of(row)?;
    for _ in 0..times(row, round)? {
        scene.add(Turn::Step { who })?;
    }
    Ok(())
}

/// `fail P.S [for memory]`
pub fn fail(scene: &mut Scene, row: &mut Sentence) -> Result<(), Wrong> {
    let who = who_of(row)?;
    let memory = row.takes("for");
    if memory {
        row.wants("memory")?;
    }
    scene.add(Turn::Fail { who, memory })
}

/// `offer P REQUEST`
pub fn offer(scene: &mut Scene, row: &mut Sentence) -> Result<(), Wrong> {
    let process = process_of(row)?;
    let request = request_of(row)?;
    scene.add(Turn::Offer { process, request })
}

/// `take P.S`
pub fn take(scene: &mut Scene, row: &mut Sentence) -> Result<(), Wrong> {
    let who = who_of(row)?;
    scene.add(Turn::Take { who })
}

/// `stop P`
pub fn stop(scene: &mut Scene, row: &mut Sentence) -> Result<(), Wrong> {
    let process = process_of(row)?;
    scene.add(Turn::Stop { process })
}

/// `install [root N] NAME BYTES BYTES`
pub fn install(scene: &mut Scene, row: &mut Sentence) -> Result<(), Wrong> {
    let root = root_of(row)?;
    let name = Text::from_string(row.text()?);
    let main = blob_of(row)?;
    let index = blob_of(row)?;
    scene.add(Turn::Install {
        root,
        name,
        main,
        index,
    })
}

/// `list BYTES` or `list away`
pub fn list(scene: &mut Scene, row: &mut Sentence) -> Result<(), Wrong> {
    if row.takes("away") {
        return scene.add(Turn::SetList { text: None });
    }
    let text = Some(blob_of(row)?);
    scene.add(Turn::SetList { text })
}

/// `clock N`
pub fn clock(scene: &mut Scene, row: &mut Sentence) -> Result<(), Wrong> {
    let now = row.number()?;
    scene.add(Turn::Clock { now })
}

/// `pass [N times]`: the own seat has a turn.
pub fn pass(scene: &mut Scene, row: &mut Sentence, round: u64) -> Result<(), Wrong> {
    for _ in 0..times(row, round)? {
        scene.add(Turn::Own)?;
    }
    Ok(())
}

/// `own REQUEST`, or `own is P.S`, which says who the own seat is.
pub fn own(scene: &mut Scene, row: &mut Sentence) -> Result<(), Wrong> {
    if row.takes("is") {
        scene.me = who_of(row)?;
        return Ok(());
    }
    let request = request_of(row)?;
    scene.act(request)
}

/// `drawn SEED [N turns]`: the schedule that is drawn from a seed.
pub fn drawn(scene: &mut Scene, row: &mut Sentence) -> Result<(), Wrong> {
    scene.begin()?;
    for turn in drawn_turns(row)? {
        scene.add(turn)?;
    }
    Ok(())
}

/// `mixed SEED [N turns]`: the same with a turn of the own seat behind every third.
pub fn mixed(scene: &mut Scene, row: &mut Sentence) -> Result<(), Wrong> {
    scene.begin()?;
    let mut made = 0u64;
    for turn in drawn_turns(row)? {
        scene.add(turn)?;
        made = made.wrapping_add(1);
        if made % OWN_EACH == 0 {
            scene.add(Turn::Own)?;
        }
    }
    Ok(())
}

fn drawn_turns(row: &mut Sentence) -> Result<Vec<Turn>, Wrong> {
    let seed = row.number()?;
    let count = turns_in(row)?;
    Ok(schedule(row.alloc(), seed, count as usize)?)
}

fn turns_in(row: &mut Sentence) -> Result<u64, Wrong> {
    if row.is_empty() {
        return Ok(USUAL_TURNS);
    }
    let count = row.number()?;
    row.wants("turns")?;
    Ok(count.min(MOST))
}

/// `told [times N] ITEM`: items that nobody made, behind what was played.
pub fn told(scene: &mut Scene, row: &mut Sentence, round: u64) -> Result<(), Wrong> {
    scene.settle()?;
    let count = told_times(row, round)?;
    let item = item_of(row)?;
    Ok(add_copies(row.alloc(), &mut scene.log, &item, count)?)
}

fn told_times(row: &mut Sentence, round: u64) -> Result<u64, Wrong> {
    if !row.takes("times") {
        return Ok(1);
    }
    Ok(number(row, round)?.min(MOST))
}
