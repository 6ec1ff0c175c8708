use cache_types::{Name, Who};
use file_log::{Call, LogItem};
use log_text::{Kind, answer_of, answer_text, kind_of, reply_of, reply_text, seat_of, who_of};
use row_text::{Sentence, Wrong, name_of};
use std::alloc::Global;

/// What an item is answered, or an operation ends with, in words.
#[derive(Drop)]
struct Told {
    text: String,
    /// Whether more may follow.
    open: bool,
}

/// Which items are meant.
#[derive(Drop)]
pub struct What {
    alloc: Global,
    kind: Kind,
    name: Option<Name>,
    told: Option<Told>,
    pub(crate) seat: Option<Who>,
    /// Whether they are of the same seat as another item.
    pub(crate) same: bool,
}

/// Takes which items are meant: `KIND [naming NAME] [answered REPLY] [with ANSWER | with any Hit] [of SEAT]`.
pub fn what_of(row: &mut Sentence) -> Result<What, Wrong> {
    let kind = kind_in(row)?;
    let name = naming(row)?;
    let told = told_in(row)?;
    let same = row.takes("alike");
    let seat = seat_in(row)?;
    Ok(What {
        alloc: row.alloc(),
        kind,
        name,
        told,
        seat,
        same,
    })
}

fn kind_in(row: &mut Sentence) -> Result<Kind, Wrong> {
    let word = row.text()?;
    match Kind::of_word(word.as_str()) {
        Some(kind) => Ok(kind),
        None => Err(Wrong::Found(format!(in row.alloc(); "no item is '{word}'")?)),
    }
}

fn naming(row: &mut Sentence) -> Result<Option<Name>, Wrong> {
    if row.takes("naming") {
        return Ok(Some(name_of(row)?));
    }
    Ok(None)
}

fn seat_in(row: &mut Sentence) -> Result<Option<Who>, Wrong> {
    if row.takes("of") {
        return Ok(Some(who_of(row)?));
    }
    Ok(None)
}

fn told_in(row: &mut Sentence) -> Result<Option<Told>, Wrong> {
    if row.takes("answered") {
        return Ok(Some(replied(row)?));
    }
    if row.takes("with") {
        return Ok(Some(ended(row)?));
    }
    Ok(None)
}

fn replied(row: &mut Sentence) -> Result<Told, Wrong> {
    let reply = reply_of(row)?;
    let text = reply_text(row.alloc(), &reply)?;
    Ok(Told { text, open: false })
}

fn ended(row: &mut Sentence) -> Result<Told, Wrong> {
    if row.takes("any") {
        row.wants("Hit")?;
        let text = String::from_str(row.alloc(), "Hit ")?;
        return Ok(Told { text, open: true });
    }
    let answer = answer_of(row)?;
    let text = answer_text(row.alloc(), &answer)?;
    Ok(Told { text, open: false })
}

impl What {
    /// Whether an item is meant.
    pub(crate) fn fits(&self, item: &LogItem) -> Result<bool, Wrong> {
        if kind_of(item) != self.kind || !self.fits_seat(item) || !self.fits_name(item) {
            return Ok(false);
        }
        self.fits_told(item)
    }

    fn fits_seat(&self, item: &LogItem) -> bool {
        match self.seat {
            Some(who) => seat_of(item) == Some(who),
            None => true,
        }
    }

    fn fits_name(&self, item: &LogItem) -> bool {
        match &self.name {
            Some(name) => names(item, name),
            None => true,
        }
    }

    fn fits_told(&self, item: &LogItem) -> Result<bool, Wrong> {
        match &self.told {
            Some(told) => is_told(self.alloc, told, item),
            None => Ok(true),
        }
    }
}

/// Whether an item is a call that names a file.
fn names(item: &LogItem, wanted: &Name) -> bool {
    match item {
        LogItem::Did { call, .. } => call_names(call, wanted),
        _ => false,
    }
}

fn call_names(call: &Call, wanted: &Name) -> bool {
    match call {
        Call::OpenOld { name, .. } => name.is(wanted),
        Call::OpenNew { name, .. } => name.is(wanted),
        Call::Rename { from, to } => from.is(wanted) || to.is(wanted),
        Call::Remove { name } => name.is(wanted),
        _ => false,
    }
}

fn is_told(alloc: Global, told: &Told, item: &LogItem) -> Result<bool, Wrong> {
    let text = match item {
        LogItem::Did { reply, .. } => reply_text(alloc, reply)?,
        LogItem::End { answer, .. } => answer_text(alloc, answer)?,
        _ => return Ok(false),
    };
    if told.open {
        return Ok(text.as_str().starts_with(told.text.as_str()));
    }
    Ok(text.as_str() == told.text.as_str())
}

/// How many items of a log are meant.
pub fn count_in(log: &[LogItem], what: &What) -> Result<u64, Wrong> {
    let mut count = 0u64;
    for item in log {
        if what.fits(item)? {
            count = count.saturating_add(1);
        }
    }
    Ok(count)
}
