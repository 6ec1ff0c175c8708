use crate::expect::number;
use db_format::IdxRow;
use db_table::{agreed_head, entries_end, row_count};
use row_text::{Sentence, Wrong, equal};

/// `index of LEN has N`: so many rows
pub fn index(row: &mut Sentence) -> Result<(), Wrong> {
    row.wants("of")?;
    let len = row.number()?;
    row.wants("has")?;
    let wanted = row.number()?;
    equal(row.alloc(), "rows", wanted, row_count(len))
}

/// `main BYTES reads with BYTES is VERSION IDENTITY`, or `is none`: the head of both files
pub fn main(row: &mut Sentence) -> Result<(), Wrong> {
    let main = row.bytes()?;
    row.wants("reads")?;
    row.wants("with")?;
    let index = row.bytes()?;
    row.wants("is")?;
    let head = agreed_head(&main, &index);
    number(row, head.map(|head| u64::from(head.version)))?;
    match head {
        Some(head) => number(row, Some(head.identity)),
        None => Ok(()),
    }
}

/// `entries PLACE SIZE .. from START within LEN end at N`, or `end at none`
pub fn entries(row: &mut Sentence) -> Result<(), Wrong> {
    let rows = rows_of(row)?;
    let start = row.number()?;
    row.wants("within")?;
    let len = row.number()?;
    row.wants("end")?;
    row.wants("at")?;
    number(row, entries_end(&rows, start, len))
}

/// Takes `PLACE SIZE .. from`.
fn rows_of(row: &mut Sentence) -> Result<Vec<IdxRow>, Wrong> {
    let mut rows = Vec::new(row.alloc());
    for _ in 0..u64::MAX {
        if row.takes("from") {
            break;
        }
        rows.push(row_of(row)?)?;
    }
    Ok(rows)
}

/// Takes `PLACE SIZE`.
fn row_of(row: &mut Sentence) -> Result<IdxRow, Wrong> {
    Ok(IdxRow {
        hash: 7,
        access: 5,
        place: row.number()?,
        size: row.number_u32()?,
    })
}
