ghost use Rattle.std.specs.Prelude.{◌≡◌, map, string_bytes};
ghost use Rattle.file_log.specs.Seat.{IsIdle};
ghost use Rattle.cache_main.specs.RoundTrip.{AreLone, IsLone, ArePair, PutEnds, FindsAgain};
ghost use Rattle.cache_main.specs.Words.{asked};
ghost use Rattle.cmd_words.specs.Asked.{driver_asked};
ghost use Rattle.settings_read.specs.Variables.{texts_of};

use crate::top::run;
use files_api::{Files, Sink, Source};
use report_text::Status;
use std::alloc::Global;

/// How a put and then a get ended.
#[derive(Clone, Copy, Debug, PartialEq, Eq)]
pub struct RoundTrip {
    pub put: Status,
    pub get: Status,
}

/// A put, and then a get of the same key for the same driver and root, by [`run`].
///
/// The put ends well, unless memory ran out, a fault was counted, its blob is too large, or another seat held
/// the lock of its folder. Where it does and no other seat acts, the get ends well too, unless memory ran out or a fault was counted: it writes the blob
/// that the store holds, which is the put's own where the put's line is `stored`.
pub fn put_then_get<F: Files, S: Source, K: Sink>(
    alloc: Global,
    put: &[String],
    get: &[String],
    vars: &[(String, String)],
    files: &mut F,
    source: &mut S,
    out: &mut K,
) -> RoundTrip
    requires { IsIdle (F.seen files.old) }
    ensures stored { ArePair (asked (map string_bytes put.now)) (asked (map string_bytes get.now)) (texts_of vars.now) → PutEnds (AreLone (F.me files.old) (F.history files.old) (F.history files.new)) result.put (F.faults files.old) (F.faults files.new) (S.left source.old) (S.left source.new) (S.faults source.old) (S.faults source.new) (K.faults out.old) (K.faults out.new) }
    ensures found { (pair : ArePair (asked (map string_bytes put.now)) (asked (map string_bytes get.now)) (texts_of vars.now)) → IsLone (F.me files.old) (F.history files.old) → IsLone (F.me files.old) (F.history files.new) → result.put ≡ Status.Ok
        → FindsAgain result.get (F.history files.new) (driver_asked pair.stores) pair.key (F.faults files.old) (F.faults files.new) (S.left source.old) (S.left source.new) (K.written out.old) (K.written out.new) (K.faults out.old) (K.faults out.new) }
    ensures idle { IsIdle (F.seen files.new) }
    ensures me { F.me files.new ≡ F.me files.old }
{
    let put = run(alloc, put, vars, files, source, out);
    let get = run(alloc, get, vars, files, source, out);
    RoundTrip { put, get }
}
