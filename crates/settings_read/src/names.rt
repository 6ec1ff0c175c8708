ghost use Rattle.std.specs.Prelude.{◌≡◌, IfOk, OnOk, IsTrue};
ghost use Rattle.std.specs.Str.Lines.{strip_carriage_return};
ghost use Rattle.path_names.specs.RoNames.{is_ro_name};
ghost use Rattle.settings_read.specs.Names.{names_of_variable, names_of_list};
ghost use Rattle.settings_read.specs.Seen.{IsSeen, with_name};

use cache_types::{NoMemory, Text, TextList};
use path_names::is_ro_name;
use std::alloc::Global;
use std::collections::BTreeSet;
use std::str;

/// At most so many read-only databases are asked.
pub const MAX_READ_ONLY: usize = 8;

/// A list file with more bytes gives no names.
pub const MAX_LIST: usize = 65_536;

/// A name as a text.
fn text_of(name: &[u8]) -> &str
    requires { IsTrue (is_ro_name name.now) }
    ensures { result.now ≡ name.now }
{
    match str::from_utf8(name) {
        Ok(text) => text,
        Err(_) => unreachable!(),
    }
}

/// Adds a piece to the names where it is one and wasn't seen before.
fn add_name<'a>(
    alloc: Global,
    names: &mut TextList,
    seen: &mut BTreeSet<&'a [u8]>,
    piece: &'a [u8],
) -> Result<(), NoMemory>
    requires { IsSeen seen.old names.old }
    ensures names { OnOk result (names.new ≡ with_name names.old piece.now) }
    ensures seen { OnOk result (IsSeen seen.new names.new) }
{
    if !is_ro_name(piece) || !seen.insert(piece)? {
        return Ok(());
    }
    names.push(Text::of(alloc, text_of(piece))?)
}

/// The names of read-only databases that a variable gives, with commas between them. Pieces that can't be
/// names are left out, and of equal names the first stays. There may be more than [`MAX_READ_ONLY`].
pub fn names_of_variable(alloc: Global, text: &str) -> Result<TextList, NoMemory>
    ensures { IfOk result (λ names. names ≡ names_of_variable text.now) }
{
    let mut names = TextList::new(alloc);
    let mut seen = BTreeSet::new(alloc);
    for piece in text.as_bytes().split(|byte| *byte == b',') {
        add_name(alloc, &mut names, &mut seen, piece)?;
    }
    Ok(names)
}

/// A line without the one carriage return at its end, if it has one.
fn without_return(line: &[u8]) -> &[u8]
    ensures { result.now ≡ strip_carriage_return line.now }
{
    match line {
        [front @ .., b'\r'] => front,
        _ => line,
    }
}

/// The names of read-only databases that a list file gives, one in each line. A line may end in a carriage
/// return. Lines that can't be names are left out, and of equal names the first stays. A file of more than
/// [`MAX_LIST`] bytes gives none.
pub fn names_of_list(alloc: Global, bytes: &[u8]) -> Result<TextList, NoMemory>
    ensures { IfOk result (λ names. names ≡ names_of_list bytes.now) }
{
    let mut names = TextList::new(alloc);
    if bytes.len() > MAX_LIST {
        return Ok(names);
    }
    let mut seen = BTreeSet::new(alloc);
    for line in bytes.split(|byte| *byte == b'\n') {
        add_name(alloc, &mut names, &mut seen, without_return(line))?;
    }
    Ok(names)
}
