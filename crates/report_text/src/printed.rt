ghost use Rattle.std.specs.Prelude.{◌≡◌, IfOk};
ghost use Rattle.report_text.specs.Lines.{key_line};
ghost use Rattle.report_text.specs.Printed.{printed, word_line};

use crate::lines::{text_of_keys, text_of_rows};
use cache_key::key_text;
use cache_types::{Answer, Bytes, Key, NoMemory, Request};
use std::alloc::Global;

/// The bytes that an answer to a request prints. A blob is copied: to write one, take its own bytes.
pub fn answer_text(alloc: Global, request: &Request, answer: &Answer) -> Result<Bytes, NoMemory>
    ensures { IfOk result (λ bytes. bytes ≡ printed request.now answer.now) }
{
    let text = match answer {
        Answer::Hit(blob) => return blob.copy(),
        Answer::Keys(keys) => text_of_keys(alloc, keys.as_slice())?,
        Answer::Rows(rows) => text_of_rows(alloc, rows.as_slice())?,
        Answer::Trimmed(n) => format!(in alloc; "trimmed {n}\n")?,
        other => String::from_str(alloc, word_of(other))?,
    };
    Ok(Bytes::from_vec(text.into_bytes()))
}

/// The line of an answer that is one word, with its newline; nothing for every other answer. Takes no
/// memory.
pub fn word_of(answer: &Answer) -> &'static str
    ensures { result.now ≡ word_line answer.now }
{
    match answer {
        Answer::Stored => "stored\n",
        Answer::Kept => "kept\n",
        Answer::Marked => "marked\n",
        Answer::Yes => "yes\n",
        Answer::No => "no\n",
        _ => "",
    }
}

/// The line that the command `key` prints: the key's 40 digits in lower case, and a newline.
pub fn key_line(alloc: Global, key: &Key) -> Result<Bytes, NoMemory>
    ensures { IfOk result (λ bytes. bytes ≡ key_line key.now) }
{
    let digits = key_text(alloc, key)?;
    let line = format!(in alloc; "{}\n", digits.as_str())?;
    Ok(Bytes::from_vec(line.into_bytes()))
}
