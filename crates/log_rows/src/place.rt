use crate::what::{What, what_of};
use file_log::LogItem;
use log_text::seat_of;
use row_text::{Sentence, Wrong};
use std::alloc::Global;

/// The places of a log among which one is looked for.
#[derive(Clone, Copy)]
struct Span {
    from: usize,
    to: usize,
}

/// Takes a place of a log: `at N`, `end`, or `first WHAT` or `last WHAT`, behind which `before PLACE` or `past PLACE`
/// may stand with a place that has neither. There `alike` behind the item's kind means one of the same seat.
pub fn place_of(row: &mut Sentence, log: &[LogItem]) -> Result<usize, Wrong> {
    if row.takes("at") {
        return number_in(row, log);
    }
    if row.takes("end") {
        return Ok(log.len().saturating_sub(1));
    }
    let last = is_last(row)?;
    let mut what = what_of(row)?;
    let span = span_of(row, log, &mut what)?;
    found(row.alloc(), find(log, &what, span, last)?)
}

/// Takes a place that no other place bounds.
fn alone(row: &mut Sentence, log: &[LogItem]) -> Result<usize, Wrong> {
    if row.takes("at") {
        return number_in(row, log);
    }
    let last = is_last(row)?;
    let what = what_of(row)?;
    let all = Span {
        from: 0,
        to: log.len(),
    };
    found(row.alloc(), find(log, &what, all, last)?)
}

fn number_in(row: &mut Sentence, log: &[LogItem]) -> Result<usize, Wrong> {
    let place = row.number()?;
    if place < log.len() as u64 {
        return Ok(place as usize);
    }
    Err(Wrong::Found(format!(in row.alloc(); "the log has {} items", log.len())?))
}

fn is_last(row: &mut Sentence) -> Result<bool, Wrong> {
    if row.takes("last") {
        return Ok(true);
    }
    row.wants("first")?;
    Ok(false)
}

/// Takes `before PLACE` or `past PLACE`.
fn span_of(row: &mut Sentence, log: &[LogItem], what: &mut What) -> Result<Span, Wrong> {
    let to = log.len();
    if row.takes("before") {
        let place = alone(row, log)?;
        bind(what, log, place);
        return Ok(Span { from: 0, to: place });
    }
    if row.takes("past") {
        let place = alone(row, log)?;
        bind(what, log, place);
        let from = place.saturating_add(1);
        return Ok(Span { from, to });
    }
    Ok(Span { from: 0, to })
}

/// Where items of the same seat are meant, they are of the seat of this item.
fn bind(what: &mut What, log: &[LogItem], place: usize) {
    if what.same
        && let Some(item) = log.get(place)
    {
        what.seat = seat_of(item);
    }
}

fn find(log: &[LogItem], what: &What, span: Span, last: bool) -> Result<Option<usize>, Wrong> {
    let mut found = None;
    for (place, item) in log.iter().enumerate() {
        let is_due = place >= span.from && place < span.to && (last || found.is_none());
        if is_due && what.fits(item)? {
            found = Some(place);
        }
    }
    Ok(found)
}

fn found(alloc: Global, place: Option<usize>) -> Result<usize, Wrong> {
    match place {
        Some(place) => Ok(place),
        None => Err(Wrong::of(alloc, "the log has no such item")),
    }
}
