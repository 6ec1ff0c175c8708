use crate::scene::Scene;
use cache_types::Who;
use file_log::LogItem;
use log_rows::{Least, What, check_item, check_length, count_in, what_of};
use row_text::{Sentence, Wrong};

/// `has [at least] N items`, or `has [at least] N WHAT`
pub fn has(scene: &mut Scene, row: &mut Sentence) -> Result<(), Wrong> {
    scene.settle()?;
    let least = Least::of(row)?;
    if row.takes("items") {
        return check_length(row.alloc(), least, &scene.log);
    }
    let what = what_of(row)?;
    least.check(row.alloc(), "of these", count_in(&scene.log, &what)?)
}

/// `all [at least] N WHAT`, or `all [at least] N crossings`: counts in all logs of the case
pub fn all(scene: &mut Scene, row: &mut Sentence) -> Result<(), Wrong> {
    scene.settle()?;
    let least = Least::of(row)?;
    if row.takes("crossings") {
        return least.check(row.alloc(), "crossings", crossings_of(scene));
    }
    let what = what_of(row)?;
    least.check(row.alloc(), "of these", count_of(scene, &what)?)
}

fn count_of(scene: &Scene, what: &What) -> Result<u64, Wrong> {
    let mut count = count_in(&scene.log, what)?;
    for log in &scene.earlier {
        count = count.saturating_add(count_in(log, what)?);
    }
    Ok(count)
}

fn crossings_of(scene: &Scene) -> u64 {
    let mut count = crossings_in(&scene.log, scene.me);
    for log in &scene.earlier {
        count = count.saturating_add(crossings_in(log, scene.me));
    }
    count
}

/// How often a call or an End of another seat stands behind one of the own seat.
fn crossings_in(log: &[LogItem], me: Who) -> u64 {
    let mut count = 0u64;
    let mut behind_own = false;
    for item in log {
        if let Some(who) = actor_of(item) {
            if behind_own && who != me {
                count = count.saturating_add(1);
            }
            behind_own = who == me;
        }
    }
    count
}

fn actor_of(item: &LogItem) -> Option<Who> {
    match item {
        LogItem::Did { who, .. } => Some(*who),
        LogItem::Byte { who, .. } => Some(*who),
        LogItem::End { who, .. } => Some(*who),
        _ => None,
    }
}

/// `item PLACE is ITEM`
pub fn item(scene: &mut Scene, row: &mut Sentence) -> Result<(), Wrong> {
    scene.settle()?;
    check_item(row, &scene.log)
}
