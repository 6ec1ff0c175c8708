use crate::word::{Short, words_of};
use crate::wrong::Wrong;
use std::alloc::Global;

/// A row: the number of its line, and its text.
#[derive(Drop)]
pub struct Row {
    pub line: u64,
    pub text: String,
}

/// A case: what it shows, and its rows.
#[derive(Drop)]
pub struct Case {
    pub title: String,
    pub line: u64,
    pub rows: Vec<Row>,
}

/// The cases of a file, and the names that it gives to words.
#[derive(Drop)]
pub struct Book {
    pub shorts: Vec<Short>,
    pub cases: Vec<Case>,
    pub rows: u64,
}

/// A line that is in no form, by its number.
#[derive(Drop)]
pub struct BadLine {
    pub line: u64,
    pub wrong: Wrong,
}

impl Book {
    /// Reads the lines of a file.
    pub fn read(alloc: Global, text: &str) -> Result<Book, BadLine> {
        let mut book = Book {
            shorts: Vec::new(alloc),
            cases: Vec::new(alloc),
            rows: 0,
        };
        let mut line = 0u64;
        for text in text.lines() {
            line = line.saturating_add(1);
            if let Err(wrong) = book.add(alloc, line, text.trim()) {
                return Err(BadLine { line, wrong });
            }
        }
        Ok(book)
    }

    /// Adds a line.
    fn add(&mut self, alloc: Global, line: u64, text: &str) -> Result<(), Wrong> {
        if text.is_empty() || text.starts_with('#') {
            return Ok(());
        }
        if let Some(title) = text.strip_prefix("case ") {
            return self.begin(alloc, line, title);
        }
        if let Some(rest) = text.strip_prefix("let ") {
            return self.name(alloc, rest);
        }
        self.push(alloc, line, text)
    }

    /// `case TITLE`
    fn begin(&mut self, alloc: Global, line: u64, title: &str) -> Result<(), Wrong> {
        let title = String::from_str(alloc, title)?;
        let rows = Vec::new(alloc);
        self.cases.push(Case { title, line, rows })?;
        Ok(())
    }

    /// `let NAME be WORDS`
    fn name(&mut self, alloc: Global, rest: &str) -> Result<(), Wrong> {
        let Some((name, words)) = rest.split_once(" be ") else {
            return Err(Wrong::of(alloc, "'let NAME be WORDS' is wanted"));
        };
        let words = words_of(alloc, words, &self.shorts)?;
        let name = String::from_str(alloc, name.trim())?;
        self.shorts.push(Short { name, words })?;
        Ok(())
    }

    /// A row of the last case.
    fn push(&mut self, alloc: Global, line: u64, text: &str) -> Result<(), Wrong> {
        let text = String::from_str(alloc, text)?;
        match self.cases.last_mut() {
            Some(case) => {
                case.rows.push(Row { line, text })?;
                self.rows = self.rows.saturating_add(1);
                Ok(())
            }
            None => Err(Wrong::of(alloc, "a case is wanted before its rows")),
        }
    }
}
