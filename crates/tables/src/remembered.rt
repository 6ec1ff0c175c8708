use db_format::IdxRow;
use db_table::Table;
use row_text::{Sentence, Wrong, equal};
use std::alloc::Global;

/// The identity that a table is given.
const IDENTITY: u64 = 7;

/// `remembered HASH.. has HASH at PLACE..`, or `has HASH nowhere`: of the rows of these hashes, scanned in two parts, in each
/// way to cut them
pub fn remembered(row: &mut Sentence) -> Result<(), Wrong> {
    let rows = rows_of(row)?;
    let hash = row.number()?;
    let wanted = places_of(row)?;
    for len in 0..=rows.len() {
        in_parts(row.alloc(), &rows, len, hash, &wanted)?;
    }
    Ok(())
}

/// Takes `HASH.. has`.
fn rows_of(row: &mut Sentence) -> Result<Vec<IdxRow>, Wrong> {
    let mut rows = Vec::new(row.alloc());
    for _ in 0..u64::MAX {
        if row.takes("has") {
            break;
        }
        rows.push(IdxRow {
            hash: row.number()?,
            size: 29,
            access: 5,
            place: 20,
        })?;
    }
    Ok(rows)
}

/// Takes `at PLACE..` or `nowhere`.
fn places_of(row: &mut Sentence) -> Result<Vec<u64>, Wrong> {
    let mut places = Vec::new(row.alloc());
    if row.takes("nowhere") {
        return Ok(places);
    }
    row.wants("at")?;
    for _ in 0..u64::MAX {
        if row.is_empty() {
            break;
        }
        places.push(row.number()?)?;
    }
    Ok(places)
}

fn in_parts(
    alloc: Global,
    rows: &[IdxRow],
    len: usize,
    hash: u64,
    wanted: &[u64],
) -> Result<(), Wrong> {
    let Some((first, rest)) = rows.split_at_checked(len) else {
        return Err(Wrong::of(alloc, "there are fewer rows"));
    };
    let mut table = Table::new(alloc);
    equal(alloc, "identity", 0, table.identity())?;
    table.extend(alloc, rows)?;
    table.forget(IDENTITY);
    equal(alloc, "scanned rows", 0, table.scanned())?;
    table.extend(alloc, first)?;
    table.extend(alloc, rest)?;
    equal(alloc, "identity", IDENTITY, table.identity())?;
    equal(alloc, "scanned rows", rows.len() as u64, table.scanned())?;
    same_places(alloc, wanted, &table.places(alloc, hash)?)
}

fn same_places(alloc: Global, wanted: &[u64], got: &[u64]) -> Result<(), Wrong> {
    equal(alloc, "places", wanted.len() as u64, got.len() as u64)?;
    for (wanted, got) in wanted.iter().zip(got) {
        equal(alloc, "place", *wanted, *got)?;
    }
    Ok(())
}
