//! A file's bytes change.

ghost use Rattle.std.specs.Prelude.{◌≡◌, ◌∷◌, [], nat_eq, take};
ghost use Rattle.std.specs.Cmp.Lexicographic.{pointwise};
ghost use Rattle.std.specs.List.{list_all};
ghost use Rattle.file_log.specs.Writing.{written};
ghost use Rattle.log_summary.specs.Summary.{Summary};
ghost use Rattle.operation_ledger.specs.Had.{IsNamesHad};
ghost use Rattle.rule_cases.specs.Cases as cases;
ghost use Rattle.world_tables.specs.Tables.{disk_at};

use crate::kinds::{is_entry, is_unwritten, may_write};
use crate::looks::{bytes_of, file_open, has_file};
use cache_types::{Name, Who};
use operation_ledger::NamesHad;
use world_tables::Tables;

/// Whether a name that has had a file lets the seat change it: it is no entry and is written at all, and
/// where it has the file now the seat may write it.
fn may_change_of(tables: &Tables, who: Who, file: usize, name: &Name) -> bool
    ensures { result ≡ cases.may_change_of (disk_at tables.now) who file name.now }
{
    !is_entry(name)
        && !is_unwritten(name)
        && (!has_file(tables, name, file) || may_write(tables, who, name))
}

/// Whether each of these names does.
fn may_change_each(tables: &Tables, who: Who, file: usize, names: &[Name]) -> bool
    ensures { result ≡ list_all (cases.may_change_of (disk_at tables.now) who file) names.now }
{
    let mut rest = names;
    while let [first, tail @ ..] = rest {
        if !may_change_of(tables, who, file, first) {
            return false;
        }
        rest = tail;
    }
    true
}

/// Whether a seat may change a file: each name that has had it lets it.
fn may_change(names: &NamesHad, tables: &Tables, who: Who, file: usize) -> bool
    ensures { (s : Summary) → IsNamesHad names.now s.had → disk_at tables.now ≡ s.state.disk → result ≡ cases.may_change s who file }
{
    may_change_each(tables, who, file, names.names_of(file))
}

/// Whether this byte stands at this place, so that to write it there changes nothing.
#[tactic(auto, using(crate::proofs::Comparisons::byte_beyond, crate::proofs::Comparisons::byte_within))]
fn has_byte(bytes: &[u8], at: u64, value: u8) -> bool
    ensures { result ≡ pointwise nat_eq (written at (value ∷ []) bytes.now) bytes.now }
{
    if at >= bytes.len() as u64 {
        return false;
    }
    bytes[at as usize] == value
}

/// Whether there are no more bytes than so many, so that to cut them to that changes nothing.
#[tactic(auto, using(crate::proofs::Comparisons::cut_told))]
fn has_at_most(bytes: &[u8], n: u64) -> bool
    ensures { result ≡ pointwise nat_eq (take n bytes.now) bytes.now }
{
    bytes.len() as u64 <= n
}

/// Whether a seat may write a byte through a slot. A byte that is there already changes nothing.
pub fn passes_writing(
    names: &NamesHad,
    tables: &Tables,
    who: Who,
    slot: u8,
    at: u64,
    value: u8,
) -> bool
    ensures { (s : Summary) → IsNamesHad names.now s.had → disk_at tables.now ≡ s.state.disk → result ≡ cases.passes_change s who (written at (value ∷ [])) (s.state.disk.slots who slot) }
{
    match file_open(tables, who, slot) {
        None => true,
        Some(file) => {
            has_byte(bytes_of(tables, file), at, value) || may_change(names, tables, who, file)
        }
    }
}

/// Whether a seat may cut the file of a slot. A file that isn't longer stays.
pub fn passes_cutting(names: &NamesHad, tables: &Tables, who: Who, slot: u8, n: u64) -> bool
    ensures { (s : Summary) → IsNamesHad names.now s.had → disk_at tables.now ≡ s.state.disk → result ≡ cases.passes_change s who (take n) (s.state.disk.slots who slot) }
{
    match file_open(tables, who, slot) {
        None => true,
        Some(file) => {
            has_at_most(bytes_of(tables, file), n) || may_change(names, tables, who, file)
        }
    }
}
