ghost use Rattle.std.specs.Prelude.{◌≡◌, ◌++◌, ◌∷◌, [], IfOk, OnOk, OnErr};

use cache_types::{NoMemory, Text};
use std::alloc::Global;
use std::marker::Model;

/// An option: its name without the dashes, and its value.
pub struct OptionPair {
    pub name: Text,
    pub value: Text,
}

impl Drop for OptionPair {
    fn drop(self) {
        let OptionPair {
            name: _name,
            value: _value,
        } = self;
    }
}

impl OptionPair {
    /// The same in memory of its own.
    pub fn copy(&self) -> Result<OptionPair, NoMemory>
        ensures { IfOk result (λ option. option ≡ self.now) }
    {
        Ok(OptionPair {
            name: self.name.copy()?,
            value: self.value.copy()?,
        })
    }
}

/// Options in the order of the words, which contracts see as their list.
pub struct OptionList {
    items: Vec<OptionPair>,
}

impl Drop for OptionList {
    fn drop(self) {
        let OptionList { items: _items } = self;
    }
}

impl Model for OptionList {
    ghost use Rattle.std.specs.Prelude.{List};
    ghost use Rattle.cmd_words.specs.declared.option_list.OptionPair.{OptionPair};

    ghost Value = { List OptionPair };

    ghost view = { λ options. options.items.items };
}

impl OptionList {
    /// No options. Takes no memory.
    pub fn new(alloc: Global) -> OptionList
        ensures { result ≡ [] }
    {
        OptionList {
            items: Vec::new(alloc),
        }
    }

    /// A copy of these options.
    pub fn of(alloc: Global, items: &[OptionPair]) -> Result<OptionList, NoMemory>
        ensures { IfOk result (λ options. options ≡ items.now) }
    {
        let mut copies = Vec::with_capacity(alloc, items.len())?;
        for item in items {
            copies.push(item.copy()?)?;
        }
        Ok(OptionList { items: copies })
    }

    /// The options. Takes no memory.
    pub fn as_slice(&self) -> &[OptionPair]
        ensures { result.now ≡ self.now }
    {
        self.items.as_slice()
    }

    /// Adds an option at the end. A refusal changes nothing.
    pub fn push(&mut self, option: OptionPair) -> Result<(), NoMemory>
        ensures ok { OnOk result (self.new ≡ self.old ++ option ∷ []) }
        ensures err { OnErr result (self.new ≡ self.old) }
    {
        self.items.push(option)?;
        Ok(())
    }

    /// The same options in memory of their own.
    pub fn copy(&self, alloc: Global) -> Result<OptionList, NoMemory>
        ensures { IfOk result (λ options. options ≡ self.now) }
    {
        OptionList::of(alloc, self.as_slice())
    }
}
