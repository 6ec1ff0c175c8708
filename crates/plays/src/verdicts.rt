use crate::scene::Scene;
use cache_types::Who;
use file_log::LogItem;
use log_rows::{place_of, spoil};
use log_text::{answer_of, answer_text, who_of};
use row_text::{Sentence, Wrong, same};
use std::alloc::Global;
use world_log::{Verdict, check_log};

/// `verdict good`, `verdict broken PLACE` or `verdict illegal PLACE`
pub fn verdict(scene: &mut Scene, row: &mut Sentence) -> Result<(), Wrong> {
    scene.settle()?;
    let wanted = wanted(row, &scene.log)?;
    let got = check_log(row.alloc(), &scene.log)?;
    if got == wanted {
        return Ok(());
    }
    Err(other(row.alloc(), wanted, got))
}

fn wanted(row: &mut Sentence, log: &[LogItem]) -> Result<Verdict, Wrong> {
    if row.takes("good") {
        return Ok(Verdict::Good);
    }
    if row.takes("illegal") {
        return Ok(Verdict::IllegalAt(place_of(row, log)? as u64));
    }
    row.wants("broken")?;
    Ok(Verdict::BrokenAt(place_of(row, log)? as u64))
}

fn other(alloc: Global, wanted: Verdict, got: Verdict) -> Wrong {
    match format!(in alloc; "wanted {wanted:?}, got {got:?}") {
        Ok(text) => Wrong::Found(text),
        Err(_) => Wrong::NoMemory,
    }
}

/// `ends P.S ANSWER`: the last operation of a seat that ended
pub fn ends(scene: &mut Scene, row: &mut Sentence) -> Result<(), Wrong> {
    scene.settle()?;
    let who = who_of(row)?;
    let wanted = answer_in(row)?;
    let got = last_answer(row.alloc(), &scene.log, who)?;
    same(
        row.alloc(),
        wanted.as_str().as_bytes(),
        got.as_str().as_bytes(),
    )
}

fn answer_in(row: &mut Sentence) -> Result<String, Wrong> {
    let answer = answer_of(row)?;
    answer_text(row.alloc(), &answer)
}

fn last_answer(alloc: Global, log: &[LogItem], seat: Who) -> Result<String, Wrong> {
    let mut last = String::from_str(alloc, "no end")?;
    for item in log {
        if let LogItem::End { who, answer } = item
            && *who == seat
        {
            last = answer_text(alloc, answer)?;
        }
    }
    Ok(last)
}

/// `spoil ..`: changes the log as it was played
pub fn spoil_whole(scene: &mut Scene, row: &mut Sentence) -> Result<(), Wrong> {
    scene.restore()?;
    spoil(row, &mut scene.log)
}

/// `also ..`: changes the log as it is
pub fn spoil_more(scene: &mut Scene, row: &mut Sentence) -> Result<(), Wrong> {
    scene.settle()?;
    spoil(row, &mut scene.log)
}
