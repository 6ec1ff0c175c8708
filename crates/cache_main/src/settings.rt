ghost use Rattle.std.specs.Prelude.{◌≡◌};
ghost use Rattle.cache_main.specs.Ends.{SettingsEnd};
ghost use Rattle.settings_read.specs.Variables.{texts_of};

use crate::overrides::settings_for;
use crate::printing::print;
use cmd_words::Command;
use files_api::Sink;
use report_text::{Status, settings_text};
use std::alloc::Global;

/// Does `settings`: prints the settings.
///
/// `Off`, `NoRoot`, `TooManyReadOnly` and `NoMemory` as [`settings_for`] says: then nothing is printed.
/// `WriteFault` only where the sink failed.
pub fn run_settings<K: Sink>(
    alloc: Global,
    command: &Command,
    vars: &[(String, String)],
    out: &mut K,
) -> Status
    ensures { SettingsEnd command.now (texts_of vars.now) result (out.new ≡ out.old) (K.written out.old) (K.written out.new) (K.faults out.old) (K.faults out.new) }
{
    let settings = match settings_for(alloc, command, vars) {
        Ok(settings) => settings,
        Err(status) => return status,
    };
    let Ok(text) = settings_text(alloc, &settings) else {
        return Status::NoMemory;
    };
    print(out, text.as_slice(), Status::Ok)
}
