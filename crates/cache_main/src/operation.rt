ghost use Rattle.std.specs.Prelude.{◌≡◌, ◌+◌, Some};
ghost use Rattle.file_log.specs.Seat.{IsIdle};
ghost use Rattle.cache_main.specs.Ends.{Ends};
ghost use Rattle.cache_main.specs.Reading.{TakesAtMost};
ghost use Rattle.cache_main.specs.Words.{IsOperation, ReadsSource};
ghost use Rattle.cmd_words.specs.Known.{IsKnown};
ghost use Rattle.settings_read.specs.Variables.{texts_of};

use crate::admission::admit;
use crate::printing::print_answer;
use crate::request::{request_of, take_blob};
use cache_types::MAX_BLOB;
use cmd_words::Command;
use files_api::{Files, Sink, Source};
use op_union::{SeatState, run_op};
use report_text::Status;
use std::alloc::Global;

/// Does a put or a get: one operation on the store, whose answer is printed.
///
/// What [`admit`] refuses is refused before anything is done, and what is wrong with a put's blob before the
/// store is asked.
pub fn run_operation<F: Files, S: Source, K: Sink>(
    alloc: Global,
    command: &Command,
    vars: &[(String, String)],
    files: &mut F,
    source: &mut S,
    out: &mut K,
) -> Status
    requires idle { IsIdle (F.seen files.old) }
    requires operation { IsOperation command.now.word }
    requires known { IsKnown command.now }
    ensures ends { Ends (Some command.now) (texts_of vars.now) (F.me files.old) result (files.new ≡ files.old) (source.new ≡ source.old) (out.new ≡ out.old) (F.history files.old) (F.history files.new) (F.faults files.old) (F.faults files.new) (S.left source.old) (S.left source.new) (S.faults source.old) (S.faults source.new) (K.written out.old) (K.written out.new) (K.faults out.old) (K.faults out.new) }
    ensures idle { IsIdle (F.seen files.new) }
    ensures me { F.me files.new ≡ F.me files.old }
    ensures kept { (ReadsSource command.now.word → ⊥) → source.new ≡ source.old }
    ensures most { TakesAtMost (MAX_BLOB + 1) (S.left source.old) (S.left source.new) }
{
    let admitted = match admit(alloc, command, vars) {
        Ok(admitted) => admitted,
        Err(status) => return status,
    };
    let blob = match take_blob(alloc, command.word, source) {
        Ok(blob) => blob,
        Err(refusal) => return refusal.status(),
    };
    let Ok(request) = request_of(alloc, command, admitted, blob) else {
        return Status::NoMemory;
    };
    let answer = run_op(alloc, files, &mut SeatState::new(), request);
    print_answer(out, &answer)
}
