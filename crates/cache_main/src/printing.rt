ghost use Rattle.cache_main.specs.Printing.{Writes, IsWritten, IsBlobOrWord, IsPrinted};

use cache_types::Answer;
use files_api::{Sink, Took};
use report_text::{Status, status_of, word_of};

/// Writes bytes to a sink until all are written or it fails, and whether all are.
fn write_all<K: Sink>(out: &mut K, bytes: &[u8]) -> bool
    ensures { Writes result bytes.now (K.written out.old) (K.written out.new) (K.faults out.old) (K.faults out.new) }
{
    let mut rest = bytes;
    'pieces: while !rest.is_empty() {
        match out.write(rest) {
            Took::Some(n) => rest = &rest[n as usize..],
            Took::Failed => return false,
        }
    }
    true
}

/// Prints some bytes, and what the call ends with: this status, or a write fault. Takes no memory.
pub fn print<K: Sink>(out: &mut K, bytes: &[u8], ending: Status) -> Status
    ensures { IsWritten bytes.now ending result (K.written out.old) (K.written out.new) (K.faults out.old) (K.faults out.new) }
{
    if write_all(out, bytes) {
        ending
    } else {
        Status::WriteFault
    }
}

/// Prints an answer: a blob from its own bytes, or a word. Takes no memory.
pub fn print_answer<K: Sink>(out: &mut K, answer: &Answer) -> Status
    requires { IsBlobOrWord answer.now }
    ensures { (request : _) → IsPrinted request answer.now result (K.written out.old) (K.written out.new) (K.faults out.old) (K.faults out.new) }
{
    let text = match answer {
        Answer::Hit(blob) => blob.as_slice(),
        other => word_of(other).as_bytes(),
    };
    print(out, text, status_of(answer))
}
