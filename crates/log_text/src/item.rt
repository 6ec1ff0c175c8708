use crate::answer::{answer_of, push_answer};
use crate::bytes::blob_of;
use crate::call::{of_kind, push_call};
use crate::driver::driver_of;
use crate::kind::{Kind, kind_of, seat_of};
use crate::note::push_evict;
use crate::reply::{push_reply, reply_of};
use crate::request::{push_request, request_of};
use crate::seat::{seat_of_text, ticket_of};
use crate::store::store_of;
use crate::words::Words;
use cache_types::{Bytes, Text, Who};
use file_log::{Call, LogItem, Reply};
use row_text::{Sentence, Wrong, key_of, root_of};
use std::alloc::Global;

/// Takes an item: its seat, its kind and what it says, as `1.0 TryLock 0 answered Held`, or `Stop 1`,
/// `Queued 1 0.0 REQUEST`, `Install NAME BYTES BYTES` and `SetList BYTES`, which are no seat's.
pub fn item_of(row: &mut Sentence) -> Result<LogItem, Wrong> {
    let word = row.text()?;
    match seat_of_text(word.as_str()) {
        Some(who) => of_seat(row, who),
        None => of_none(row, word.as_str()),
    }
}

/// Takes an item that is no seat's.
fn of_none(row: &mut Sentence, word: &str) -> Result<LogItem, Wrong> {
    match word {
        "Queued" => queued(row),
        "Stop" => stop(row),
        "Install" => install(row),
        "SetList" => set_list(row),
        _ => Err(Wrong::Found(format!(in row.alloc(); "'{word}' is neither a seat nor an item")?)),
    }
}

/// Takes an item of a seat.
fn of_seat(row: &mut Sentence, who: Who) -> Result<LogItem, Wrong> {
    let word = row.text()?;
    match Kind::of_word(word.as_str()) {
        Some(kind) => of_kind_and_seat(row, who, kind),
        None => Err(Wrong::Found(format!(in row.alloc(); "no item is '{word}'")?)),
    }
}

fn of_kind_and_seat(row: &mut Sentence, who: Who, kind: Kind) -> Result<LogItem, Wrong> {
    match kind {
        Kind::Taken => taken(row, who),
        Kind::Begin => begin(row, who),
        Kind::Byte => byte(row, who),
        Kind::Failed => failed(row, who),
        Kind::Evict => evict(row, who),
        Kind::End => end(row, who),
        kind => did(row, who, kind),
    }
}

fn queued(row: &mut Sentence) -> Result<LogItem, Wrong> {
    let process = row.number_u32()?;
    let ticket = ticket_of(row)?;
    let request = request_of(row)?;
    Ok(LogItem::Queued {
        process,
        ticket,
        request,
    })
}

fn taken(row: &mut Sentence, who: Who) -> Result<LogItem, Wrong> {
    let ticket = ticket_of(row)?;
    Ok(LogItem::Taken { who, ticket })
}

fn begin(row: &mut Sentence, who: Who) -> Result<LogItem, Wrong> {
    let request = request_of(row)?;
    Ok(LogItem::Begin { who, request })
}

fn did(row: &mut Sentence, who: Who, kind: Kind) -> Result<LogItem, Wrong> {
    let call = of_kind(row, kind)?;
    let reply = answered(row)?;
    Ok(LogItem::Did { who, call, reply })
}

fn answered(row: &mut Sentence) -> Result<Reply, Wrong> {
    row.wants("answered")?;
    reply_of(row)
}

fn byte(row: &mut Sentence, who: Who) -> Result<LogItem, Wrong> {
    let slot = row.number_u8()?;
    row.wants("at")?;
    let at = row.number()?;
    row.wants("is")?;
    let value = row.byte()?;
    Ok(LogItem::Byte {
        who,
        slot,
        at,
        value,
    })
}

fn failed(row: &mut Sentence, who: Who) -> Result<LogItem, Wrong> {
    let memory = row.takes("memory");
    Ok(LogItem::Failed { who, memory })
}

fn evict(row: &mut Sentence, who: Who) -> Result<LogItem, Wrong> {
    let key = key_of(row)?;
    let store = store_of(row)?;
    let driver = driver_of(row)?;
    Ok(LogItem::Evict {
        who,
        store,
        driver,
        key,
    })
}

fn end(row: &mut Sentence, who: Who) -> Result<LogItem, Wrong> {
    let answer = answer_of(row)?;
    Ok(LogItem::End { who, answer })
}

fn stop(row: &mut Sentence) -> Result<LogItem, Wrong> {
    let process = row.number_u32()?;
    Ok(LogItem::Stop { process })
}

fn install(row: &mut Sentence) -> Result<LogItem, Wrong> {
    let root = root_of(row)?;
    let name = Text::from_string(row.text()?);
    let main = blob_of(row)?;
    let index = blob_of(row)?;
    Ok(LogItem::Install {
        root,
        name,
        main,
        index,
    })
}

fn set_list(row: &mut Sentence) -> Result<LogItem, Wrong> {
    if row.takes("away") {
        return Ok(LogItem::SetList { text: None });
    }
    let text = Some(blob_of(row)?);
    Ok(LogItem::SetList { text })
}

/// An item in the words of a row.
pub fn text_of(alloc: Global, item: &LogItem) -> Result<String, Wrong> {
    let mut words = Words::new(alloc);
    push_item(&mut words, item)?;
    Ok(words.into_text())
}

fn push_item(words: &mut Words, item: &LogItem) -> Result<(), Wrong> {
    push_seat(words, item)?;
    if let LogItem::Did { call, reply, .. } = item {
        return push_did(words, call, reply);
    }
    words.word(kind_of(item).word())?;
    push_rest(words, item)
}

fn push_seat(words: &mut Words, item: &LogItem) -> Result<(), Wrong> {
    match seat_of(item) {
        Some(who) => words.who(who),
        None => Ok(()),
    }
}

fn push_did(words: &mut Words, call: &Call, reply: &Reply) -> Result<(), Wrong> {
    push_call(words, call)?;
    words.word("answered")?;
    push_reply(words, reply)
}

/// What stands behind the kind of an item that is no call.
fn push_rest(words: &mut Words, item: &LogItem) -> Result<(), Wrong> {
    match item {
        LogItem::Queued {
            process,
            ticket,
            request,
        } => {
            words.number(u64::from(*process))?;
            words.ticket(*ticket)?;
            push_request(words, request)
        }
        LogItem::Taken { ticket, .. } => words.ticket(*ticket),
        LogItem::Begin { request, .. } => push_request(words, request),
        LogItem::Did { .. } => Ok(()),
        LogItem::Byte {
            slot,
            at,
            value,
            ..
        } => push_byte(words, *slot, *at, *value),
        LogItem::Failed { memory, .. } => push_memory(words, *memory),
        LogItem::Evict {
            store,
            driver,
            key,
            ..
        } => push_evict(words, *store, driver, key),
        LogItem::End { answer, .. } => push_answer(words, answer),
        LogItem::Stop { process } => words.number(u64::from(*process)),
        LogItem::Install {
            root,
            name,
            main,
            index,
        } => push_install(words, *root, name, main, index),
        LogItem::SetList { text } => push_list(words, text),
    }
}

fn push_byte(words: &mut Words, slot: u8, at: u64, value: u8) -> Result<(), Wrong> {
    words.number(u64::from(slot))?;
    words.named("at", at)?;
    words.word("is")?;
    words.digits(&[value])
}

fn push_memory(words: &mut Words, memory: bool) -> Result<(), Wrong> {
    if memory {
        return words.word("memory");
    }
    Ok(())
}

fn push_install(
    words: &mut Words,
    root: u32,
    name: &Text,
    main: &Bytes,
    index: &Bytes,
) -> Result<(), Wrong> {
    words.root(root)?;
    words.quoted(name.as_str())?;
    words.bytes(main.as_slice())?;
    words.bytes(index.as_slice())
}

fn push_list(words: &mut Words, text: &Option<Bytes>) -> Result<(), Wrong> {
    match text {
        Some(text) => words.bytes(text.as_slice()),
        None => words.word("away"),
    }
}
