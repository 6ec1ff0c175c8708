use crate::expect::same_text;
use crate::texts::text;
use cache_types::{Answer, Bytes, Key, KeyList, Request, Row, RowList, Text};
use report_text::{Status, answer_text, fault_text, status_of, word_of};
use row_text::{Sentence, Wrong, equal, key_of, same};
use std::alloc::Global;

/// `status NAME [N [M]] has code CODE and says TEXT`
pub fn status(row: &mut Sentence) -> Result<(), Wrong> {
    let status = named_status(row)?;
    row.wants("has")?;
    row.wants("code")?;
    let alloc = row.alloc();
    equal(
        alloc,
        "as the code",
        row.number()?,
        u64::from(status.code()),
    )?;
    row.wants("and")?;
    row.wants("says")?;
    let wanted = text(row)?;
    same_text(alloc, wanted.as_str(), fault_text(alloc, &status)?.as_str())
}

/// Takes a status: `NAME [N [M]]`.
fn named_status(row: &mut Sentence) -> Result<Status, Wrong> {
    let name = row.text()?;
    if let Some(status) = plain_status(name.as_str()) {
        return Ok(status);
    }
    let number = row.number()?;
    match name.as_str() {
        "TooLarge" => Ok(Status::TooLarge(number)),
        "TooManyReadOnly" => Ok(Status::TooManyReadOnly(number)),
        "BrokenLog" => Ok(Status::BrokenLog(number)),
        "BadLine" => Ok(Status::BadLine(number)),
        "OtherHistory" => Ok(Status::OtherHistory(number, row.number()?)),
        _ => Err(Wrong::of(row.alloc(), "no status has this name")),
    }
}

/// The status of this name that has no number.
fn plain_status(name: &str) -> Option<Status> {
    match name {
        "Ok" => Some(Status::Ok),
        "Miss" => Some(Status::Miss),
        "Usage" => Some(Status::Usage),
        "BadKey" => Some(Status::BadKey),
        "Busy" => Some(Status::Busy),
        "ReadFault" => Some(Status::ReadFault),
        "WriteFault" => Some(Status::WriteFault),
        "FilesFault" => Some(Status::FilesFault),
        "Off" => Some(Status::Off),
        "NoMemory" => Some(Status::NoMemory),
        "Damaged" => Some(Status::Damaged),
        "NoRoot" => Some(Status::NoRoot),
        "Foreign" => Some(Status::Foreign),
        "NotBuilt" => Some(Status::NotBuilt),
        _ => None,
    }
}

/// `answer ANSWER ends CODE prints BYTES`
pub fn answer(row: &mut Sentence) -> Result<(), Wrong> {
    let answer = answer_of(row)?;
    row.wants("ends")?;
    let code = row.number()?;
    row.wants("prints")?;
    let wanted = row.bytes()?;
    ends_so(row.alloc(), &answer, code, &wanted)
}

fn ends_so(alloc: Global, answer: &Answer, code: u64, wanted: &[u8]) -> Result<(), Wrong> {
    equal(
        alloc,
        "as the code",
        code,
        u64::from(status_of(answer).code()),
    )?;
    let printed = printed(alloc, answer)?;
    same(alloc, wanted, printed.as_slice())
}

/// What an answer prints. Of the request nothing is printed.
fn printed(alloc: Global, answer: &Answer) -> Result<Bytes, Wrong> {
    let key = Key { bytes: [0; 20] };
    let request = Request::HasKey { root: 0, key };
    Ok(answer_text(alloc, &request, answer)?)
}

/// `word of ANSWER ends BYTES`: its line, where it is one word
pub fn word(row: &mut Sentence) -> Result<(), Wrong> {
    row.wants("of")?;
    let answer = answer_of(row)?;
    row.wants("prints")?;
    let wanted = row.bytes()?;
    same(row.alloc(), &wanted, word_of(&answer).as_bytes())
}

/// Takes an answer: `hit BYTES`, `keys KEY..`, `rows ROW..`, `trimmed N`, `too-large N`, or a word.
fn answer_of(row: &mut Sentence) -> Result<Answer, Wrong> {
    let name = row.text()?;
    match name.as_str() {
        "hit" => Ok(Answer::Hit(Bytes::from_vec(row.bytes()?))),
        "keys" => Ok(Answer::Keys(keys_of(row)?)),
        "rows" => Ok(Answer::Rows(rows_of(row)?)),
        "trimmed" => Ok(Answer::Trimmed(row.number()?)),
        "too-large" => Ok(Answer::TooLarge(row.number()?)),
        name => plain_answer(row.alloc(), name),
    }
}

fn plain_answer(alloc: Global, name: &str) -> Result<Answer, Wrong> {
    match name {
        "miss" => Ok(Answer::Miss),
        "stored" => Ok(Answer::Stored),
        "kept" => Ok(Answer::Kept),
        "yes" => Ok(Answer::Yes),
        "no" => Ok(Answer::No),
        "marked" => Ok(Answer::Marked),
        "foreign" => Ok(Answer::Foreign),
        "busy" => Ok(Answer::Busy),
        "files-fault" => Ok(Answer::FilesFault),
        "no-memory" => Ok(Answer::NoMemory),
        _ => Err(Wrong::of(alloc, "no answer has this name")),
    }
}

/// Takes `KEY..`.
fn keys_of(row: &mut Sentence) -> Result<KeyList, Wrong> {
    let mut keys = KeyList::new(row.alloc());
    for _ in 0..u64::MAX {
        if row.is_empty() || row.has("ends") || row.has("prints") {
            break;
        }
        keys.push(key_of(row)?)?;
    }
    Ok(keys)
}

/// Takes the lines of `verify`: `head TEXT`, or `entry PLACE KEY FINDING`, where `-` stands for no place or key.
fn rows_of(row: &mut Sentence) -> Result<RowList, Wrong> {
    let mut rows = RowList::new(row.alloc());
    for _ in 0..u64::MAX {
        if row.takes("head") {
            rows.push(Row::Head(Text::from_string(text(row)?)))?;
        } else if row.takes("entry") {
            rows.push(entry_of(row)?)?;
        } else {
            break;
        }
    }
    Ok(rows)
}

/// Takes `PLACE KEY FINDING`.
fn entry_of(row: &mut Sentence) -> Result<Row, Wrong> {
    let place = match row.takes("-") {
        true => None,
        false => Some(row.number()?),
    };
    let key = match row.takes("-") {
        true => None,
        false => Some(key_of(row)?),
    };
    let finding = Text::from_string(text(row)?);
    Ok(Row::Entry {
        place,
        key,
        finding,
    })
}
