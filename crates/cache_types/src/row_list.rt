ghost use Rattle.std.specs.Prelude.{◌≡◌, ◌++◌, ◌∷◌, [], IfOk, OnOk, OnErr};

use crate::memory::NoMemory;
use crate::row::Row;
use std::alloc::Global;
use std::marker::Model;

/// Lines of what `verify` found, which contracts see as their list.
#[derive(Debug)]
pub struct RowList {
    items: Vec<Row>,
}

impl Drop for RowList {
    fn drop(self) {
        let RowList { items: _items } = self;
    }
}

impl Model for RowList {
    ghost use Rattle.std.specs.Prelude.{List};
    ghost use Rattle.cache_types.specs.declared.row.Row.{Row};

    ghost Value = { List Row };

    ghost view = { λ r. r.items.items };
}

impl RowList {
    /// No lines. Takes no memory.
    pub fn new(alloc: Global) -> RowList
        ensures { result ≡ [] }
    {
        RowList {
            items: Vec::new(alloc),
        }
    }

    /// A copy of these lines.
    pub fn of(alloc: Global, items: &[Row]) -> Result<RowList, NoMemory>
        ensures { IfOk result (λ r. r ≡ items.now) }
    {
        let mut copies = Vec::with_capacity(alloc, items.len())?;
        for item in items {
            copies.push(item.copy()?)?;
        }
        Ok(RowList { items: copies })
    }

    /// The lines. Takes no memory.
    pub fn as_slice(&self) -> &[Row]
        ensures { result.now ≡ self.now }
    {
        self.items.as_slice()
    }

    /// Adds a line at the end. A refusal changes nothing.
    pub fn push(&mut self, row: Row) -> Result<(), NoMemory>
        ensures ok { OnOk result (self.new ≡ self.old ++ row ∷ []) }
        ensures err { OnErr result (self.new ≡ self.old) }
    {
        self.items.push(row)?;
        Ok(())
    }

    /// The same lines in memory of their own.
    pub fn copy(&self, alloc: Global) -> Result<RowList, NoMemory>
        ensures { IfOk result (λ r. r ≡ self.now) }
    {
        RowList::of(alloc, self.as_slice())
    }
}
