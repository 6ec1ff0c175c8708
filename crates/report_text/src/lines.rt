ghost use Rattle.std.specs.Prelude.{◌≡◌, ◌++◌, IfOk, OnOk, string_bytes};
ghost use Rattle.report_text.specs.Lines.{key_lines, key_part, row_line, row_lines};

use cache_key::key_text;
use cache_types::{Key, NoMemory, Row};
use std::alloc::Global;

/// Adds a key, or a dash where there is none.
fn push_key(alloc: Global, text: &mut String, key: &Option<Key>) -> Result<(), NoMemory>
    ensures { OnOk result (string_bytes text.new ≡ string_bytes text.old ++ key_part key.now) }
{
    match key {
        Some(key) => text.push_str(key_text(alloc, key)?.as_str())?,
        None => text.push_str("-")?,
    }
    Ok(())
}

/// Adds a line of `verify`, without its newline.
fn push_row(alloc: Global, text: &mut String, row: &Row) -> Result<(), NoMemory>
    ensures { OnOk result (string_bytes text.new ≡ string_bytes text.old ++ row_line row.now) }
{
    match row {
        Row::Head(head) => text.push_str(head.as_str())?,
        Row::Entry {
            place,
            key,
            finding,
        } => {
            if let Some(place) = place {
                write!(text, "{place} ")?;
            }
            push_key(alloc, text, key)?;
            write!(text, " {}", finding.as_str())?;
        }
    }
    Ok(())
}

/// The keys, one a line.
pub fn text_of_keys(alloc: Global, keys: &[Key]) -> Result<String, NoMemory>
    ensures { IfOk result (λ text. string_bytes text ≡ key_lines keys.now) }
{
    let mut text = String::new(alloc);
    for key in keys {
        text.push_str(key_text(alloc, key)?.as_str())?;
        text.push_str("\n")?;
    }
    Ok(text)
}

/// What `verify` found, a line for each row.
pub fn text_of_rows(alloc: Global, rows: &[Row]) -> Result<String, NoMemory>
    ensures { IfOk result (λ text. string_bytes text ≡ row_lines rows.now) }
{
    let mut text = String::new(alloc);
    for row in rows {
        push_row(alloc, &mut text, row)?;
        text.push_str("\n")?;
    }
    Ok(text)
}
