ghost use Rattle.std.specs.Prelude.{IfOk};
ghost use Rattle.cache_main.specs.Admission.{IsAdmitted, Admits};
ghost use Rattle.settings_read.specs.Variables.{texts_of};

use crate::keys::{NamedKeys, keys_of};
use crate::overrides::settings_for;
use cache_types::Layout;
use cmd_words::Command;
use report_text::Status;
use settings_read::CacheSettings;
use std::alloc::Global;

/// What a put or a get is done with, but the blob.
#[derive(Drop)]
pub struct Admitted {
    pub settings: CacheSettings,
    pub keys: NamedKeys,
}

/// Looks at all that can be wrong with a put or a get before anything is done.
///
/// # Errors
///
/// The first that applies: those of [`settings_for`], `NotBuilt` exactly where the store has another layout
/// than one file for each entry, and those of [`keys_of`].
pub fn admit(
    alloc: Global,
    command: &Command,
    vars: &[(String, String)],
) -> Result<Admitted, Status>
    ensures admitted { IfOk result (IsAdmitted command.now (texts_of vars.now)) }
    ensures refused { Admits command.now (texts_of vars.now) result }
{
    let settings = match settings_for(alloc, command, vars) {
        Ok(settings) => settings,
        Err(status) => return Err(status),
    };
    if settings.layout != Layout::Folder {
        return Err(Status::NotBuilt);
    }
    match keys_of(alloc, command) {
        Ok(keys) => Ok(Admitted { settings, keys }),
        Err(status) => Err(status),
    }
}
