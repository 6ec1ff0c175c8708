ghost use Rattle.std.specs.Prelude.{◌≡◌, ℕ, IfOk, IfErr};
ghost use Rattle.cache_main.specs.Settings.{over_of, AreSettingsFor, status_of_settings, IsSettingsRefusal};
ghost use Rattle.cache_main.specs.Top.{RefusesExactly};
ghost use Rattle.settings_read.specs.Settings.{IsOff, HasNoRoot, HasTooMany};
ghost use Rattle.settings_read.specs.Variables.{texts_of};

use cache_types::{NoMemory, Text};
use cmd_words::Command;
use report_text::Status;
use settings_read::{CacheSettings, Overrides, SettingsRefusal, settings_over};
use std::alloc::Global;

/// What the words of a command say in place of variables.
fn overrides_of(alloc: Global, command: &Command) -> Result<Overrides, NoMemory>
    ensures { IfOk result (λ over. over ≡ over_of command.now) }
{
    let root = match command.root() {
        Some(root) => Some(Text::of(alloc, root)?),
        None => None,
    };
    Ok(Overrides {
        root,
        layout: command.layout(),
        limit: command.limit(),
    })
}

/// The status of variables that give no settings.
fn status_of(refusal: SettingsRefusal) -> Status
    ensures { result ≡ status_of_settings refusal }
{
    match refusal {
        SettingsRefusal::Off => Status::Off,
        SettingsRefusal::NoRoot => Status::NoRoot,
        SettingsRefusal::TooManyReadOnly(n) => Status::TooManyReadOnly(n),
        SettingsRefusal::NoMemory => Status::NoMemory,
    }
}

/// The settings of a command, by its words and the variables.
///
/// # Errors
///
/// `Off`, `NoRoot` and `TooManyReadOnly`, each exactly where [`settings_over`] says so; `NoMemory`.
pub fn settings_for(
    alloc: Global,
    command: &Command,
    vars: &[(String, String)],
) -> Result<CacheSettings, Status>
    ensures given { IfOk result (AreSettingsFor command.now (texts_of vars.now)) }
    ensures off { RefusesExactly result Status.Off (IsOff (texts_of vars.now)) }
    ensures no_root { RefusesExactly result Status.NoRoot (HasNoRoot (texts_of vars.now) (over_of command.now)) }
    ensures too_many { (n : ℕ) → RefusesExactly result (Status.TooManyReadOnly n) (HasTooMany (texts_of vars.now) (over_of command.now) n) }
    ensures refused { IfErr result IsSettingsRefusal }
{
    let Ok(over) = overrides_of(alloc, command) else {
        return Err(Status::NoMemory);
    };
    match settings_over(alloc, vars, over) {
        Ok(settings) => Ok(settings),
        Err(refusal) => Err(status_of(refusal)),
    }
}
