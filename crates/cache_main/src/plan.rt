ghost use Rattle.std.specs.Prelude.{◌≡◌, ◌∷◌, [], ℕ, IfOk, IfErr, map, string_bytes};
ghost use Rattle.cache_main.specs.Paths.{HasPaths};
ghost use Rattle.cache_main.specs.Settings.{IsTurnedOff, LacksRoot, NamesTooMany};
ghost use Rattle.cache_main.specs.Top.{RefusesExactly, RefusesPaths};
ghost use Rattle.cache_main.specs.Words.{asked, HasNoReading};
ghost use Rattle.settings_read.specs.Variables.{texts_of};

use crate::overrides::settings_for;
use crate::words::{needs_settings, read_command};
use cache_types::{NoMemory, TextList};
use path_names::Paths;
use report_text::Status;
use settings_read::CacheSettings;
use std::alloc::Global;

/// The paths of the one root of settings, and of their list of read-only databases.
fn paths_of(alloc: Global, settings: CacheSettings) -> Result<Paths, NoMemory>
    ensures { IfOk result (λ paths. (paths.roots ≡ settings.root ∷ []) × (paths.list ≡ settings.list)) }
{
    let CacheSettings { root, list, .. } = settings;
    let mut roots = TextList::new(alloc);
    roots.push(root)?;
    Ok(Paths { roots, list })
}

/// The paths that real files need for these words and variables: the root of the settings and their list. For
/// `key`, which reads no settings, there are none.
///
/// # Errors
///
/// As [`run`](crate::run): `Usage` exactly where the words have no reading as a command that is served, and for
/// every command but `key` `Off`, `NoRoot` and `TooManyReadOnly` exactly where the variables give no settings;
/// `NoMemory`.
pub fn plan_of(alloc: Global, words: &[String], vars: &[(String, String)]) -> Result<Paths, Status>
    ensures paths { IfOk result (HasPaths (asked (map string_bytes words.now)) (texts_of vars.now)) }
    ensures usage { RefusesExactly result Status.Usage (HasNoReading (asked (map string_bytes words.now))) }
    ensures off { RefusesExactly result Status.Off (IsTurnedOff (asked (map string_bytes words.now)) (texts_of vars.now)) }
    ensures no_root { RefusesExactly result Status.NoRoot (LacksRoot (asked (map string_bytes words.now)) (texts_of vars.now)) }
    ensures too_many { (n : ℕ) → RefusesExactly result (Status.TooManyReadOnly n) (NamesTooMany (asked (map string_bytes words.now)) (texts_of vars.now) n) }
    ensures refused { IfErr result RefusesPaths }
{
    let command = match read_command(alloc, words) {
        Ok(command) => command,
        Err(status) => return Err(status),
    };
    if !needs_settings(command.word) {
        return Ok(Paths {
            roots: TextList::new(alloc),
            list: None,
        });
    }
    let settings = match settings_for(alloc, &command, vars) {
        Ok(settings) => settings,
        Err(status) => return Err(status),
    };
    match paths_of(alloc, settings) {
        Ok(paths) => Ok(paths),
        Err(_) => Err(Status::NoMemory),
    }
}
