use cache_types::Who;
use file_log::Ticket;
use row_text::{Sentence, Wrong};

/// Takes a seat: its process, a point, and its number in the process, as `1.0`.
pub fn who_of(row: &mut Sentence) -> Result<Who, Wrong> {
    let text = row.text()?;
    match seat_of_text(text.as_str()) {
        Some(who) => Ok(who),
        None => Err(Wrong::Found(format!(in row.alloc(); "'{text}' is no seat")?)),
    }
}

/// The seat that a word says.
pub(crate) fn seat_of_text(text: &str) -> Option<Who> {
    let (process, seat) = text.split_once('.')?;
    let process = process.parse::<u32>().ok()?;
    let seat = seat.parse::<u32>().ok()?;
    Some(Who { process, seat })
}

/// Takes a process's number.
pub fn process_of(row: &mut Sentence) -> Result<u32, Wrong> {
    row.number_u32()
}

/// Takes a ticket: its side, a point, and its number, as `0.3`.
pub(crate) fn ticket_of(row: &mut Sentence) -> Result<Ticket, Wrong> {
    let text = row.text()?;
    match ticket_of_text(text.as_str()) {
        Some(ticket) => Ok(ticket),
        None => Err(Wrong::Found(format!(in row.alloc(); "'{text}' is no ticket")?)),
    }
}

fn ticket_of_text(text: &str) -> Option<Ticket> {
    let (side, number) = text.split_once('.')?;
    let side = side.parse::<u8>().ok()?;
    let number = number.parse::<u64>().ok()?;
    Some(Ticket { side, number })
}
