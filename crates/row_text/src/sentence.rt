use crate::word::Word;
use crate::wrong::Wrong;
use std::alloc::Global;
use std::collections::VecDeque;

/// The words that end the bytes or texts before them.
const ENDS: [&str; 6] = ["reads", "ends", "saying", "prints", "bytes", "is"];

/// What is left to be read of a row.
#[derive(Drop)]
pub struct Sentence {
    alloc: Global,
    words: VecDeque<Word>,
}

impl Sentence {
    /// All of these words are left.
    pub(crate) fn of(alloc: Global, words: Vec<Word>) -> Result<Sentence, Wrong> {
        let mut left = VecDeque::new(alloc);
        for word in words {
            left.push_back(word)?;
        }
        Ok(Sentence { alloc, words: left })
    }

    /// The memory that its words are in.
    pub fn alloc(&self) -> Global {
        self.alloc
    }

    /// Refuses a row of which something is left.
    pub fn end(&self) -> Result<(), Wrong> {
        match self.words.front() {
            None => Ok(()),
            Some(word) => Err(Wrong::Found(format!(in self.alloc;
                "no row reads so from '{}' on",
                word.text
            )?)),
        }
    }

    /// Takes the next word, in quotes or not.
    pub fn next(&mut self) -> Result<Word, Wrong> {
        match self.words.pop_front() {
            Some(word) => Ok(word),
            None => Err(Wrong::of(self.alloc, "the row ends too early")),
        }
    }

    /// Whether nothing is left.
    pub fn is_empty(&self) -> bool {
        self.words.is_empty()
    }

    /// Whether the next word is this one.
    pub fn has(&self, text: &str) -> bool {
        match self.words.front() {
            Some(word) => word.is(text),
            None => false,
        }
    }

    /// Takes this word, if it is the next.
    pub fn takes(&mut self, text: &str) -> bool {
        let takes = self.has(text);
        if takes {
            let _word = self.words.pop_front();
        }
        takes
    }

    /// Takes this word, which has to be the next.
    pub fn wants(&mut self, text: &str) -> Result<(), Wrong> {
        if self.takes(text) {
            return Ok(());
        }
        Err(Wrong::Found(format!(in self.alloc; "'{text}' is wanted here")?))
    }

    /// Takes a number.
    pub fn number(&mut self) -> Result<u64, Wrong> {
        let word = self.next()?;
        match word.text.as_str().parse::<u64>() {
            Ok(number) => Ok(number),
            Err(_) => Err(Wrong::Found(format!(in self.alloc; "'{}' is no number", word.text)?)),
        }
    }

    /// Takes a number below 2^32.
    pub fn number_u32(&mut self) -> Result<u32, Wrong> {
        let number = self.number()?;
        match u32::try_from(number) {
            Ok(number) => Ok(number),
            Err(_) => Err(self.too_large(number)),
        }
    }

    /// Takes a number below 256.
    pub fn number_u8(&mut self) -> Result<u8, Wrong> {
        let number = self.number()?;
        match u8::try_from(number) {
            Ok(number) => Ok(number),
            Err(_) => Err(self.too_large(number)),
        }
    }

    fn too_large(&self, number: u64) -> Wrong {
        match format!(in self.alloc; "{number} is too large") {
            Ok(text) => Wrong::Found(text),
            Err(_) => Wrong::NoMemory,
        }
    }

    /// Takes the words up to one that ends them (`reads`, `ends`, `saying`, `prints`, `bytes`, `is`), as texts.
    pub fn texts(&mut self) -> Result<Vec<String>, Wrong> {
        let mut texts = Vec::new(self.alloc);
        for _ in 0..self.words.len() {
            if self.is_at_end() {
                break;
            }
            texts.push(self.text()?)?;
        }
        Ok(texts)
    }

    /// Takes the next word as a text.
    pub fn text(&mut self) -> Result<String, Wrong> {
        let Word { text, .. } = self.next()?;
        Ok(text)
    }

    /// Takes the bytes that are next, up to a word that ends them: hexadecimal digits, texts in quotes (`\n` is a
    /// newline), `zeros` and a number.
    pub fn bytes(&mut self) -> Result<Vec<u8>, Wrong> {
        let mut bytes = Vec::new(self.alloc);
        for _ in 0..self.words.len() {
            if self.is_at_end() {
                break;
            }
            self.push_bytes(&mut bytes)?;
        }
        Ok(bytes)
    }

    fn push_bytes(&mut self, bytes: &mut Vec<u8>) -> Result<(), Wrong> {
        if self.takes("zeros") {
            let count = self.number()?;
            return push_zeros(self.alloc, bytes, count);
        }
        let word = self.next()?;
        if word.quoted {
            return push_text(bytes, word.text.as_str());
        }
        push_digits(self.alloc, bytes, word.text.as_str())
    }

    /// Takes a byte as two hexadecimal digits.
    pub fn byte(&mut self) -> Result<u8, Wrong> {
        let word = self.next()?;
        let mut bytes = Vec::new(self.alloc);
        push_digits(self.alloc, &mut bytes, word.text.as_str())?;
        match bytes.as_slice() {
            [byte] => Ok(*byte),
            _ => Err(Wrong::of(self.alloc, "two digits are wanted")),
        }
    }

    /// Whether no word is left, or one that ends bytes is next.
    fn is_at_end(&self) -> bool {
        match self.words.front() {
            Some(word) => ENDS.iter().any(|end| word.is(end)),
            None => true,
        }
    }
}

/// The most zeros that a row may ask for.
const MOST_ZEROS: u64 = 1 << 26;

fn push_zeros(alloc: Global, bytes: &mut Vec<u8>, count: u64) -> Result<(), Wrong> {
    if count > MOST_ZEROS {
        return Err(Wrong::of(alloc, "so many zeros are too many"));
    }
    let len = bytes.len().saturating_add(count as usize);
    bytes.resize(len, 0)?;
    Ok(())
}

/// Adds a text's bytes, where `\n` is a newline.
fn push_text(bytes: &mut Vec<u8>, text: &str) -> Result<(), Wrong> {
    let mut first = true;
    for line in text.split("\\n") {
        if !first {
            bytes.push(b'\n')?;
        }
        first = false;
        bytes.extend_from_slice(line.as_bytes())?;
    }
    Ok(())
}

fn push_digits(alloc: Global, bytes: &mut Vec<u8>, text: &str) -> Result<(), Wrong> {
    match hex::decode(alloc, text) {
        Ok(more) => {
            bytes.extend_from_slice(&more)?;
            Ok(())
        }
        Err(_) => Err(Wrong::Found(format!(in alloc;
            "'{text}' are no bytes: hexadecimal digits, a text in quotes, or zeros and a number"
        )?)),
    }
}
