use crate::texts::text;
use row_text::{Sentence, Wrong, equal, same};
use std::alloc::Global;

/// Refuses another text than the wanted one.
pub fn same_text(alloc: Global, wanted: &str, got: &str) -> Result<(), Wrong> {
    same(alloc, wanted.as_bytes(), got.as_bytes())
}

/// Refuses another number than the wanted one, or one where none is wanted.
pub fn same_number(alloc: Global, wanted: Option<u64>, got: Option<u64>) -> Result<(), Wrong> {
    if got == wanted {
        return Ok(());
    }
    match got {
        Some(got) => Err(Wrong::Found(format!(in alloc; "got {got}")?)),
        None => Err(Wrong::of(alloc, "got none")),
    }
}

/// Takes the number that is wanted, or `none`, and refuses another one.
pub fn number(row: &mut Sentence, got: Option<u64>) -> Result<(), Wrong> {
    let wanted = match row.takes("none") {
        true => None,
        false => Some(row.number()?),
    };
    same_number(row.alloc(), wanted, got)
}

/// Takes the text that is wanted, or `none`, and refuses another one.
pub fn optional_text(row: &mut Sentence, got: Option<&str>) -> Result<(), Wrong> {
    if row.takes("none") {
        return nothing(row.alloc(), got);
    }
    let wanted = text(row)?;
    match got {
        Some(got) => same_text(row.alloc(), wanted.as_str(), got),
        None => Err(Wrong::of(row.alloc(), "got none")),
    }
}

/// Refuses a text where none is wanted.
fn nothing(alloc: Global, got: Option<&str>) -> Result<(), Wrong> {
    match got {
        Some(got) => Err(Wrong::Found(format!(in alloc; "got '{got}'")?)),
        None => Ok(()),
    }
}

/// Refuses a yes where the row says no, or a no where it says yes.
pub fn holds(alloc: Global, what: &str, wanted: bool, got: bool) -> Result<(), Wrong> {
    equal(alloc, what, u64::from(wanted), u64::from(got))
}
