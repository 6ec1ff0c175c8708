ghost use Rattle.std.specs.Prelude.{◌≡◌, ◌++◌, ◌∷◌, [], length, IfOk, OnOk, OnErr};

use crate::key::Key;
use crate::memory::NoMemory;
use std::alloc::Global;
use std::marker::Model;

/// Keys on the heap, which contracts see as their list.
#[derive(Debug)]
pub struct KeyList {
    items: Vec<Key>,
}

impl Drop for KeyList {
    fn drop(self) {
        let KeyList { items: _items } = self;
    }
}

impl Model for KeyList {
    ghost use Rattle.std.specs.Prelude.{List};
    ghost use Rattle.cache_types.specs.declared.key.Key.{Key};

    ghost Value = { List Key };

    ghost view = { λ k. k.items.items };
}

impl KeyList {
    /// No keys. Takes no memory.
    pub fn new(alloc: Global) -> KeyList
        ensures { result ≡ [] }
    {
        KeyList {
            items: Vec::new(alloc),
        }
    }

    /// A copy of these keys.
    pub fn of(alloc: Global, items: &[Key]) -> Result<KeyList, NoMemory>
        ensures { IfOk result (λ k. k ≡ items.now) }
    {
        let items = Vec::from_slice(alloc, items)?;
        Ok(KeyList { items })
    }

    /// The keys of a vector, which keeps its memory.
    pub fn from_vec(items: Vec<Key>) -> KeyList
        ensures { result ≡ items.items }
    {
        KeyList { items }
    }

    /// The keys. Takes no memory.
    pub fn as_slice(&self) -> &[Key]
        ensures { result.now ≡ self.now }
    {
        self.items.as_slice()
    }

    /// The same keys in memory of their own.
    pub fn copy(&self) -> Result<KeyList, NoMemory>
        ensures { IfOk result (λ k. k ≡ self.now) }
    {
        let items = self.items.clone()?;
        Ok(KeyList { items })
    }

    /// Adds a key at the end. A refusal changes nothing.
    pub fn push(&mut self, key: Key) -> Result<(), NoMemory>
        ensures ok { OnOk result (self.new ≡ self.old ++ key ∷ []) }
        ensures err { OnErr result (self.new ≡ self.old) }
    {
        self.items.push(key)?;
        Ok(())
    }
}
