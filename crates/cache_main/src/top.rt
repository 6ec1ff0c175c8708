ghost use Rattle.std.specs.Prelude.{◌≡◌, ◌≤◌, ◌+◌, ◌⊎◌, ℕ, Some, IsTrue, map, string_bytes};
ghost use Rattle.cache_types.specs.declared.limits.TheConstants.{MAX_BLOB};
ghost use Rattle.file_log.specs.Seat.{IsIdle};
ghost use Rattle.file_log.specs.Told.{Grows, Rose};
ghost use Rattle.op_union.specs.Cooperating.{KeepsOwn};
ghost use Rattle.cache_main.specs.Cooperating.{MissesTruly};
ghost use Rattle.cache_main.specs.Ends.{Ends};
ghost use Rattle.cache_main.specs.Keys.{HasBadKey};
ghost use Rattle.cache_main.specs.Reading.{TakesAtMost};
ghost use Rattle.cache_main.specs.Served.{Served};
ghost use Rattle.cache_main.specs.Settings.{IsTurnedOff, LacksRoot, NamesTooMany, IsUnbuilt};
ghost use Rattle.cache_main.specs.Top.{EndsExactly, IsRefused, IsUnread, AsksToRead, AsksNoSource, AsksNoFiles, HasLargeSource, RefusesSource};
ghost use Rattle.cache_main.specs.Words.{asked, HasNoReading, is_served};
ghost use Rattle.cmd_words.specs.Known.{IsKnown};
ghost use Rattle.settings_read.specs.Variables.{texts_of};

use crate::key::run_key;
use crate::operation::run_operation;
use crate::settings::run_settings;
use crate::words::read_command;
use cmd_words::{Command, Word};
use files_api::{Files, Sink, Source};
use report_text::Status;
use std::alloc::Global;

/// Does a command that was read.
fn run_command<F: Files, S: Source, K: Sink>(
    alloc: Global,
    command: &Command,
    vars: &[(String, String)],
    files: &mut F,
    source: &mut S,
    out: &mut K,
) -> Status
    requires idle { IsIdle (F.seen files.old) }
    requires served { IsTrue (is_served command.now.word) }
    requires known { IsKnown command.now }
    ensures ends { Ends (Some command.now) (texts_of vars.now) (F.me files.old) result (files.new ≡ files.old) (source.new ≡ source.old) (out.new ≡ out.old) (F.history files.old) (F.history files.new) (F.faults files.old) (F.faults files.new) (S.left source.old) (S.left source.new) (S.faults source.old) (S.faults source.new) (K.written out.old) (K.written out.new) (K.faults out.old) (K.faults out.new) }
    ensures idle { IsIdle (F.seen files.new) }
    ensures me { F.me files.new ≡ F.me files.old }
    ensures source { AsksNoSource (Some command.now) → source.new ≡ source.old }
    ensures files { AsksNoFiles (Some command.now) → files.new ≡ files.old }
    ensures most { TakesAtMost (MAX_BLOB + 1) (S.left source.old) (S.left source.new) }
{
    match command.word {
        Word::Key => run_key(alloc, command, source, out),
        Word::Settings => run_settings(alloc, command, vars, out),
        Word::Put | Word::Get => run_operation(alloc, command, vars, files, source, out),
        _ => Status::Usage,
    }
}

/// Does what the words ask for, by the variables where it needs settings, and says how it ended: all that the
/// program does.
///
/// `put` and `get` are one operation on the store, `key` prints the key of the source's content, `settings` the
/// settings. A put takes its blob from the source, and `key` its content, at most one byte more than the longest
/// blob has, before anything else is done; a get and `settings` leave the source as it is. What a hit found is
/// written to `out`, and of a put the line `stored` or `kept`.
///
/// Of these the first that applies, each exactly where its cause holds, but that want of memory may stand in
/// its place: `Usage` where the words have no reading as a command that is served; for every command but `key`
/// `Off`, `NoRoot` and `TooManyReadOnly` where the variables give no settings; for a put and a get `NotBuilt`
/// where the store has another layout than one file for each entry, and `BadKey` where KEY or a text of `--meta`
/// isn't 40 hexadecimal digits. Then nothing is done. For a put and `key`, `ReadFault` only where the source
/// failed, and `TooLarge` exactly where it has more bytes than the longest blob: then the store isn't asked.
/// `Miss` where the store holds no blob, `FilesFault` only where a call of the files failed, `WriteFault` only
/// where the sink failed, `NoMemory` where there was no memory before the operation ended; then nothing is
/// written.
pub fn run<F: Files, S: Source, K: Sink>(
    alloc: Global,
    words: &[String],
    vars: &[(String, String)],
    files: &mut F,
    source: &mut S,
    out: &mut K,
) -> Status
    requires { IsIdle (F.seen files.old) }

    // What the words and the variables refuse is refused before anything is done, in this order.
    ensures usage { EndsExactly result Status.Usage (HasNoReading (asked (map string_bytes words.now))) }
    ensures off { EndsExactly result Status.Off (IsTurnedOff (asked (map string_bytes words.now)) (texts_of vars.now)) }
    ensures no_root { EndsExactly result Status.NoRoot (LacksRoot (asked (map string_bytes words.now)) (texts_of vars.now)) }
    ensures too_many { (n : ℕ) → EndsExactly result (Status.TooManyReadOnly n) (NamesTooMany (asked (map string_bytes words.now)) (texts_of vars.now) n) }
    ensures not_built { EndsExactly result Status.NotBuilt (IsUnbuilt (asked (map string_bytes words.now)) (texts_of vars.now)) }
    ensures bad_key { EndsExactly result Status.BadKey (HasBadKey (asked (map string_bytes words.now)) (texts_of vars.now)) }
    ensures refused { IsRefused result → (files.new ≡ files.old) × (source.new ≡ source.old) × (out.new ≡ out.old) }

    // What is wrong with the source is found before the store is asked.
    ensures read_fault { result ≡ Status.ReadFault → AsksToRead (asked (map string_bytes words.now)) × Rose (S.faults source.old) (S.faults source.new) }
    ensures too_large { (count : ℕ) → result ≡ Status.TooLarge count → RefusesSource (asked (map string_bytes words.now)) count (S.left source.old) (S.left source.new) }
    ensures large { HasLargeSource (asked (map string_bytes words.now)) (texts_of vars.now) (S.left source.old) → IsUnread result ⊎ (result ≡ Status.NoMemory) }
    ensures unread { IsUnread result → (files.new ≡ files.old) × (out.new ≡ out.old) }

    // Every other call does what its command is there for; or there was no memory to begin it.
    ensures served { IsRefused result ⊎ IsUnread result ⊎ ((result ≡ Status.NoMemory) × (files.new ≡ files.old) × (out.new ≡ out.old))
        ⊎ Served (asked (map string_bytes words.now)) (texts_of vars.now) (F.me files.old) result (F.history files.old) (F.history files.new) (F.faults files.old) (F.faults files.new) (S.left source.old) (S.left source.new) (K.written out.old) (K.written out.new) (K.faults out.old) (K.faults out.new) }

    // Own handles keep the rules among seats, whatever others do between their calls, and as long as none breaks one a miss is true.
    ensures keeps { Grows (F.history files.old) (F.history files.new) (KeepsOwn (F.me files.old)) }
    ensures misses { MissesTruly (asked (map string_bytes words.now)) (F.me files.old) result (F.history files.old) (F.history files.new) }

    // A fault has its cause, and no count of faults falls.
    ensures files_fault { result ≡ Status.FilesFault → Rose (F.faults files.old) (F.faults files.new) }
    ensures write_fault { result ≡ Status.WriteFault → Rose (K.faults out.old) (K.faults out.new) }
    ensures counts { (F.faults files.old ≤ F.faults files.new) × (S.faults source.old ≤ S.faults source.new) × (K.faults out.old ≤ K.faults out.new) }

    // The files may be used again; `key` and `settings` make no call of them.
    ensures idle { IsIdle (F.seen files.new) }
    ensures me { F.me files.new ≡ F.me files.old }
    ensures files { AsksNoFiles (asked (map string_bytes words.now)) → files.new ≡ files.old }

    // A get and `settings` leave the source as it is, and no call takes more of it than one byte too many.
    ensures source { AsksNoSource (asked (map string_bytes words.now)) → source.new ≡ source.old }
    ensures most { TakesAtMost (MAX_BLOB + 1) (S.left source.old) (S.left source.new) }
{
    match read_command(alloc, words) {
        Ok(command) => run_command(alloc, &command, vars, files, source, out),
        Err(status) => status,
    }
}
