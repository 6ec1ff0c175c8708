use crate::words::Words;
use cache_types::{Key, KeyList, Meta, RoPlan, Row, RowList, Text, TextList};
use row_text::{Sentence, Wrong, key_of};

/// Takes a number and so many keys.
pub(crate) fn keys_of(row: &mut Sentence) -> Result<KeyList, Wrong> {
    let mut keys = KeyList::new(row.alloc());
    for _ in 0..row.number()? {
        keys.push(key_of(row)?)?;
    }
    Ok(keys)
}

pub(crate) fn push_keys(words: &mut Words, keys: &[Key]) -> Result<(), Wrong> {
    words.number(keys.len() as u64)?;
    for key in keys {
        words.key(key)?;
    }
    Ok(())
}

/// Takes `[sources N KEY ..]`: the keys of the sources that were linked.
pub(crate) fn meta_of(row: &mut Sentence) -> Result<Meta, Wrong> {
    if row.takes("sources") {
        return Ok(Meta::Glsl(keys_of(row)?));
    }
    Ok(Meta::Unknown)
}

pub(crate) fn push_meta(words: &mut Words, meta: &Meta) -> Result<(), Wrong> {
    match meta {
        Meta::Unknown => Ok(()),
        Meta::Glsl(keys) => {
            words.word("sources")?;
            push_keys(words, keys.as_slice())
        }
    }
}

/// Takes `[asks N NAME ..] [listed]`: the read-only databases that are asked.
pub(crate) fn plan_of(row: &mut Sentence) -> Result<RoPlan, Wrong> {
    let names = names_of(row)?;
    let list = row.takes("listed");
    Ok(RoPlan { names, list })
}

fn names_of(row: &mut Sentence) -> Result<TextList, Wrong> {
    let mut names = TextList::new(row.alloc());
    if row.takes("asks") {
        for _ in 0..row.number()? {
            names.push(Text::from_string(row.text()?))?;
        }
    }
    Ok(names)
}

pub(crate) fn push_plan(words: &mut Words, plan: &RoPlan) -> Result<(), Wrong> {
    push_names(words, plan.names.as_slice())?;
    if plan.list {
        return words.word("listed");
    }
    Ok(())
}

fn push_names(words: &mut Words, names: &[Text]) -> Result<(), Wrong> {
    if names.is_empty() {
        return Ok(());
    }
    words.named("asks", names.len() as u64)?;
    for name in names {
        words.quoted(name.as_str())?;
    }
    Ok(())
}

/// Takes a number and so many lines: `head TEXT`, or `entry [at N] [of KEY] TEXT`.
pub(crate) fn rows_of(row: &mut Sentence) -> Result<RowList, Wrong> {
    let mut rows = RowList::new(row.alloc());
    for _ in 0..row.number()? {
        rows.push(line_of(row)?)?;
    }
    Ok(rows)
}

fn line_of(row: &mut Sentence) -> Result<Row, Wrong> {
    if row.takes("head") {
        return Ok(Row::Head(Text::from_string(row.text()?)));
    }
    row.wants("entry")?;
    let place = place_of(row)?;
    let key = line_key_of(row)?;
    let finding = Text::from_string(row.text()?);
    Ok(Row::Entry {
        place,
        key,
        finding,
    })
}

fn place_of(row: &mut Sentence) -> Result<Option<u64>, Wrong> {
    if row.takes("at") {
        return Ok(Some(row.number()?));
    }
    Ok(None)
}

fn line_key_of(row: &mut Sentence) -> Result<Option<Key>, Wrong> {
    if row.takes("of") {
        return Ok(Some(key_of(row)?));
    }
    Ok(None)
}

pub(crate) fn push_rows(words: &mut Words, rows: &[Row]) -> Result<(), Wrong> {
    words.number(rows.len() as u64)?;
    for row in rows {
        push_line(words, row)?;
    }
    Ok(())
}

fn push_line(words: &mut Words, row: &Row) -> Result<(), Wrong> {
    match row {
        Row::Head(text) => {
            words.word("head")?;
            words.quoted(text.as_str())
        }
        Row::Entry {
            place,
            key,
            finding,
        } => {
            words.word("entry")?;
            push_place(words, *place)?;
            push_line_key(words, *key)?;
            words.quoted(finding.as_str())
        }
    }
}

fn push_place(words: &mut Words, place: Option<u64>) -> Result<(), Wrong> {
    match place {
        Some(place) => words.named("at", place),
        None => Ok(()),
    }
}

fn push_line_key(words: &mut Words, key: Option<Key>) -> Result<(), Wrong> {
    match key {
        Some(key) => {
            words.word("of")?;
            words.key(&key)
        }
        None => Ok(()),
    }
}
