ghost use Rattle.std.specs.Prelude.{◌≡◌, ◌++◌, ◌∷◌, [], List, OnOk, OnErr};
ghost use Rattle.cache_types.specs.declared.name.Name.{Name};

use cache_types::{Name, NoMemory};
use std::alloc::Global;
use std::marker::Model;

/// Names on the heap, which contracts see as their list.
#[derive(Debug, Drop)]
pub struct NameList {
    held: Vec<Name>,
}

impl Model for NameList {
    ghost use Rattle.std.specs.Prelude.{List};
    ghost use Rattle.cache_types.specs.declared.name.Name.{Name};

    ghost Value = { List Name };

    ghost view = { λ n. n.held.items };
}

impl NameList {
    /// No names. Takes no memory.
    pub fn new(alloc: Global) -> NameList
        ensures { result ≡ [] }
    {
        NameList {
            held: Vec::new(alloc),
        }
    }

    /// The names. Takes no memory.
    pub fn as_slice(&self) -> &[Name]
        ensures { result.now ≡ self.now }
    {
        self.held.as_slice()
    }

    /// Adds a name at the end. A refusal changes nothing.
    pub fn push(&mut self, name: Name) -> Result<(), NoMemory>
        ensures ok { OnOk result (self.new ≡ self.old ++ name ∷ []) }
        ensures err { OnErr result (self.new ≡ self.old) }
    {
        self.held.push(name)?;
        Ok(())
    }

    /// Takes the last name away, if there is one.
    pub fn pop(&mut self)
        ensures { (names : List Name) (name : Name) → self.old ≡ names ++ name ∷ [] → self.new ≡ names }
    {
        let _last = self.held.pop();
    }
}
