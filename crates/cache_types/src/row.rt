ghost use Rattle.std.specs.Prelude.{◌≡◌, IfOk};

use crate::key::Key;
use crate::memory::NoMemory;
use crate::text::Text;

/// A line of what `verify` found.
#[derive(Debug)]
pub enum Row {
    /// What stands first: which layout, and whether its heads agree.
    Head(Text),
    /// An entry or a row, with its place in the index and its key, where it has them.
    Entry {
        place: Option<u64>,
        key: Option<Key>,
        finding: Text,
    },
}

impl Drop for Row {
    fn drop(self) {
        match self {
            Row::Head(_head) => {}
            Row::Entry {
                place: _,
                key: _,
                finding: _finding,
            } => {}
        }
    }
}

impl Row {
    /// The same in memory of its own.
    pub fn copy(&self) -> Result<Row, NoMemory>
        ensures { IfOk result (λ r. r ≡ self.now) }
    {
        match self {
            Row::Head(text) => Ok(Row::Head(text.copy()?)),
            Row::Entry {
                place,
                key,
                finding,
            } => Ok(Row::Entry {
                place: *place,
                key: *key,
                finding: finding.copy()?,
            }),
        }
    }
}
