ghost use Rattle.std.specs.Prelude.{◌≡◌, ◌++◌, ◌∷◌, [], IfOk, OnOk, OnErr};

use crate::memory::NoMemory;
use crate::text::Text;
use std::alloc::Global;
use std::marker::Model;

/// Texts on the heap, which contracts see as the list of their bytes: names of read-only databases,
/// roots, words.
#[derive(Debug)]
pub struct TextList {
    items: Vec<Text>,
}

impl Drop for TextList {
    fn drop(self) {
        let TextList { items: _items } = self;
    }
}

impl Model for TextList {
    ghost use Rattle.std.specs.Prelude.{List, ℕ};

    ghost Value = { List (List ℕ) };

    ghost view = { λ n. n.items.items };
}

impl TextList {
    /// No texts. Takes no memory.
    pub fn new(alloc: Global) -> TextList
        ensures { result ≡ [] }
    {
        TextList {
            items: Vec::new(alloc),
        }
    }

    /// A copy of these texts.
    pub fn of(alloc: Global, items: &[Text]) -> Result<TextList, NoMemory>
        ensures { IfOk result (λ n. n ≡ items.now) }
    {
        let mut copies = Vec::with_capacity(alloc, items.len())?;
        for item in items {
            copies.push(item.copy()?)?;
        }
        Ok(TextList { items: copies })
    }

    /// The texts. Takes no memory.
    pub fn as_slice(&self) -> &[Text]
        ensures { result.now ≡ self.now }
    {
        self.items.as_slice()
    }

    /// Adds a text at the end. A refusal changes nothing.
    pub fn push(&mut self, text: Text) -> Result<(), NoMemory>
        ensures ok { OnOk result (self.new ≡ self.old ++ text ∷ []) }
        ensures err { OnErr result (self.new ≡ self.old) }
    {
        self.items.push(text)?;
        Ok(())
    }

    /// The same texts in memory of their own.
    pub fn copy(&self, alloc: Global) -> Result<TextList, NoMemory>
        ensures { IfOk result (λ n. n ≡ self.now) }
    {
        TextList::of(alloc, self.as_slice())
    }
}
