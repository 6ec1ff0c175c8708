use crate::bytes::is_plain;
use cache_key::key_text;
use cache_types::{Key, Name, Who};
use file_log::Ticket;
use row_text::Wrong;
use std::alloc::Global;

/// A text that is told word by word.
#[derive(Drop)]
pub(crate) struct Words {
    alloc: Global,
    text: String,
}

impl Words {
    pub(crate) fn new(alloc: Global) -> Words {
        Words {
            alloc,
            text: String::new(alloc),
        }
    }

    pub(crate) fn into_text(self) -> String {
        let Words { alloc: _, text } = self;
        text
    }

    /// Adds a word, behind a blank where it isn't the first.
    pub(crate) fn word(&mut self, word: &str) -> Result<(), Wrong> {
        if !self.text.is_empty() {
            self.text.push_str(" ")?;
        }
        self.text.push_str(word)?;
        Ok(())
    }

    pub(crate) fn number(&mut self, number: u64) -> Result<(), Wrong> {
        let text = format!(in self.alloc; "{number}")?;
        self.word(text.as_str())
    }

    /// Adds a word and a number.
    pub(crate) fn named(&mut self, name: &str, number: u64) -> Result<(), Wrong> {
        self.word(name)?;
        self.number(number)
    }

    pub(crate) fn who(&mut self, who: Who) -> Result<(), Wrong> {
        let text = format!(in self.alloc; "{}.{}", who.process, who.seat)?;
        self.word(text.as_str())
    }

    pub(crate) fn ticket(&mut self, ticket: Ticket) -> Result<(), Wrong> {
        let text = format!(in self.alloc; "{}.{}", ticket.side, ticket.number)?;
        self.word(text.as_str())
    }

    pub(crate) fn key(&mut self, key: &Key) -> Result<(), Wrong> {
        let text = key_text(self.alloc, key)?;
        self.word(text.as_str())
    }

    pub(crate) fn quoted(&mut self, text: &str) -> Result<(), Wrong> {
        let text = format!(in self.alloc; "\"{text}\"")?;
        self.word(text.as_str())
    }

    /// Adds bytes: a text in quotes where they are one, and else digits.
    pub(crate) fn bytes(&mut self, bytes: &[u8]) -> Result<(), Wrong> {
        if is_plain(bytes)
            && let Ok(text) = str::from_utf8(bytes)
        {
            return self.quoted(text);
        }
        self.digits(bytes)
    }

    pub(crate) fn digits(&mut self, bytes: &[u8]) -> Result<(), Wrong> {
        let text = hex::encode(self.alloc, bytes)?;
        self.word(text.as_str())
    }

    pub(crate) fn root(&mut self, root: u32) -> Result<(), Wrong> {
        if root == 0 {
            return Ok(());
        }
        self.named("root", u64::from(root))
    }

    /// Adds a file's name, as rows have it.
    pub(crate) fn name(&mut self, name: &Name) -> Result<(), Wrong> {
        match name {
            Name::FolderLock { root, byte } => self.byte_name(*root, "FolderLock", *byte),
            Name::Entry { root, key } => self.key_name(*root, "Entry", key),
            Name::Temp { root, key } => self.key_name(*root, "Temp", key),
            Name::KeyIndex { root } => self.plain_name(*root, "KeyIndex"),
            Name::Db { root } => self.plain_name(*root, "Db"),
            Name::Idx { root } => self.plain_name(*root, "Idx"),
            Name::Foz { root } => self.plain_name(*root, "Foz"),
            Name::FozIdx { root } => self.plain_name(*root, "FozIdx"),
            Name::Ro { root, name } => self.text_name(*root, "Ro", name.as_str()),
            Name::RoIdx { root, name } => self.text_name(*root, "RoIdx", name.as_str()),
            Name::List => self.word("List"),
        }
    }

    fn plain_name(&mut self, root: u32, kind: &str) -> Result<(), Wrong> {
        self.root(root)?;
        self.word(kind)
    }

    fn key_name(&mut self, root: u32, kind: &str, key: &Key) -> Result<(), Wrong> {
        self.plain_name(root, kind)?;
        self.key(key)
    }

    fn text_name(&mut self, root: u32, kind: &str, name: &str) -> Result<(), Wrong> {
        self.plain_name(root, kind)?;
        self.quoted(name)
    }

    pub(crate) fn byte_name(&mut self, root: u32, kind: &str, byte: u8) -> Result<(), Wrong> {
        self.plain_name(root, kind)?;
        self.digits(&[byte])
    }
}
