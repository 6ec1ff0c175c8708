ghost use Rattle.std.specs.Prelude.{◌≡◌, ◌↔◌, ◌≤◌, List, ℕ, length, IfSome, IsNone, IsSome, Some};
ghost use Rattle.db_table.specs.Heads.{Agree, head_in};
ghost use Rattle.db_table.specs.Rows.{row_count as the_count, rows_of};
ghost use Rattle.db_table.specs.Truth.{row_end};
ghost use Rattle.db_table.specs.Usable.{IsUsable, StandInOrder, last_end, live_end};

use db_format::{ENTRY_HEAD_LEN, HEAD_LEN, Head, IdxRow, ROW_LEN, read_head};

/// How many rows an index of so many bytes has: bytes of a last one that isn't whole are none.
pub fn row_count(index_len: u64) -> u64
    ensures { (index : List ℕ) → length index ≡ index_len → result ≡ the_count index }
{
    index_len.saturating_sub(HEAD_LEN as u64) / ROW_LEN as u64
}

/// The head of a database's file and of its index, of which the first 20 bytes are enough, where both have one and it is the
/// same; None exactly where they don't agree.
pub fn agreed_head(main: &[u8], index: &[u8]) -> Option<Head>
    ensures found { IfSome result (λ head. (head_in main.now ≡ Some head) × (head_in index.now ≡ Some head)) }
    ensures agree { IsSome result ↔ Agree main.now index.now }
{
    let main = read_head(main).ok()?;
    let index = read_head(index).ok()?;
    if main != index {
        return None;
    }
    Some(main)
}

/// Where the entries of some rows end, if each stands behind that of the row before, the first at `start` or later, and within
/// a file of so many bytes; None exactly where one doesn't. Rows of an index that are looked at in pieces begin at 20, and each
/// piece where the one before ended.
pub fn entries_end(rows: &[IdxRow], start: u64, len: u64) -> Option<u64>
    ensures found { IfSome result (λ end. StandInOrder len start rows.now × (end ≡ last_end start rows.now)) }
    ensures none { IsNone result → StandInOrder len start rows.now → ⊥ }
{
    let mut end = start;
    let mut rest = rows;
    while let Some((row, tail)) = rest.split_first() {
        end = entry_end(row, end, len)?;
        rest = tail;
    }
    Some(end)
}

/// Where a row's entry ends, if it begins at `start` or later and ends within so many bytes.
fn entry_end(row: &IdxRow, start: u64, len: u64) -> Option<u64>
    ensures found { IfSome result (λ end. (start ≤ row.now.place) × (row_end row.now ≤ len) × (end ≡ row_end row.now)) }
    ensures none { IsNone result → start ≤ row.now.place → row_end row.now ≤ len → ⊥ }
{
    let whole = ENTRY_HEAD_LEN as u64 + u64::from(row.size);
    let end = row.place.checked_add(whole)?;
    if row.place < start || len < end {
        return None;
    }
    Some(end)
}
