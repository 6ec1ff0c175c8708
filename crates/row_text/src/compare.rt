use crate::wrong::Wrong;
use std::alloc::Global;

/// The most bytes that are shown as digits.
const MOST_SHOWN: usize = 100;

/// Bytes as a row has them: a text in quotes where it is printable, and else digits.
pub fn shown(alloc: Global, bytes: &[u8]) -> Result<String, Wrong> {
    if bytes.iter().all(|byte| *byte >= 32 && *byte < 127)
        && let Ok(text) = str::from_utf8(bytes)
    {
        return Ok(format!(in alloc; "\"{text}\"")?);
    }
    if bytes.len() > MOST_SHOWN {
        return Ok(format!(in alloc; "{} bytes", bytes.len())?);
    }
    Ok(hex::encode(alloc, bytes)?)
}

/// Refuses other bytes than the wanted ones.
pub fn same(alloc: Global, wanted: &[u8], got: &[u8]) -> Result<(), Wrong> {
    if got == wanted {
        return Ok(());
    }
    let wanted = shown(alloc, wanted)?;
    let got = shown(alloc, got)?;
    Err(Wrong::Found(format!(in alloc; "wanted {wanted}, got {got}")?))
}

/// Refuses another number than the wanted one, of what the text says.
pub fn equal(alloc: Global, what: &str, wanted: u64, got: u64) -> Result<(), Wrong> {
    if got == wanted {
        return Ok(());
    }
    Err(Wrong::Found(format!(in alloc; "wanted {wanted} {what}, got {got}")?))
}
