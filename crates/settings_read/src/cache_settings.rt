ghost use Rattle.std.specs.Prelude.{◌≡◌, ◌≤◌, ◌↔◌, ℕ, length, IfOk, IfErr, Ok, Err, None};
ghost use Rattle.settings_read.specs.Variables.{texts_of};
ghost use Rattle.settings_read.specs.Places.{base_of, root_from};
ghost use Rattle.settings_read.specs.Overridden.{nothing_over, list_given, names_given};
ghost use Rattle.settings_read.specs.Settings.{IsOff, HasNoRoot, HasTooMany, IsForNames, Refuses, AreGiven};

use crate::names::{MAX_READ_ONLY, names_of_variable};
use crate::overrides::Overrides;
use crate::places::{base_of, layout_of_variables, root_in};
use crate::size::size_of_text;
use crate::variables::{DISABLE, DYNAMIC_LIST, MAX_SIZE, READ_ONLY, is_true, value_of};
use cache_types::{Layout, NoMemory, Text, TextList};
use std::alloc::Global;

/// Where a cache lies, and how it is kept.
#[derive(Drop)]
pub struct CacheSettings {
    /// The root folder of its store.
    pub root: Text,
    /// The layout of its store.
    pub layout: Layout,
    /// How many bytes it may have.
    pub max: u64,
    /// The names of the read-only databases that are asked before it, at most [`MAX_READ_ONLY`].
    pub ro: TextList,
    /// The path of the file that names more of them, where there is one.
    pub list: Option<Text>,
}

/// Why there are no settings: the first that applies, in this order.
#[derive(Clone, Copy, Debug, PartialEq, Eq)]
pub enum SettingsRefusal {
    /// The cache is turned off.
    Off,
    /// Neither the words nor a variable say where it lies.
    NoRoot,
    /// So many different read-only databases are named, more than [`MAX_READ_ONLY`].
    TooManyReadOnly(u64),
    /// Memory ran out.
    NoMemory,
}

impl From<NoMemory> for SettingsRefusal {
    ghost use Rattle.std.specs.Prelude.{◌≡◌};
    ghost use Rattle.settings_read.specs.declared.cache_settings.SettingsRefusal.TheVariants as refusals;

    ghost from_gives = { λ _ refusal. refusal ≡ refusals.NoMemory };

    fn from(_error: NoMemory) -> SettingsRefusal {
        SettingsRefusal::NoMemory
    }
}

/// The path of the list file, in memory of its own.
fn list_of(alloc: Global, vars: &[(String, String)]) -> Result<Option<Text>, NoMemory>
    ensures { IfOk result (λ list. list ≡ list_given (texts_of vars.now)) }
{
    match value_of(vars, DYNAMIC_LIST) {
        Some(path) => Ok(Some(Text::of(alloc, path)?)),
        None => Ok(None),
    }
}

/// The root that is given, with its own memory, else the layout's where the variables say, if they do. Takes
/// no memory where there is none.
fn root_of(
    alloc: Global,
    vars: &[(String, String)],
    given: Option<Text>,
    layout: Layout,
) -> Result<Option<Text>, NoMemory>
    ensures root { IfOk result (λ root. root ≡ root_from given (base_of (texts_of vars.now)) layout) }
    ensures none { root_from given (base_of (texts_of vars.now)) layout ≡ None → result ≡ Ok None }
{
    if given.is_some() {
        return Ok(given);
    }
    match base_of(vars) {
        Some(base) => Ok(Some(root_in(alloc, base, layout)?)),
        None => Ok(None),
    }
}

/// The names of the read-only databases, at most [`MAX_READ_ONLY`].
fn few_names(alloc: Global, vars: &[(String, String)]) -> Result<TextList, SettingsRefusal>
    ensures few { IfOk result (λ ro. (ro ≡ names_given (texts_of vars.now)) × (length ro ≤ 8)) }
    ensures many { IfErr result (IsForNames (names_given (texts_of vars.now))) }
{
    let ro = names_of_variable(alloc, value_of(vars, READ_ONLY).unwrap_or(""))?;
    let named = ro.as_slice().len();
    if named > MAX_READ_ONLY {
        return Err(SettingsRefusal::TooManyReadOnly(named as u64));
    }
    Ok(ro)
}

/// The settings of this root, layout and size.
fn settings_in(
    alloc: Global,
    vars: &[(String, String)],
    root: Text,
    layout: Layout,
    max: u64,
) -> Result<CacheSettings, SettingsRefusal>
    ensures few { IfOk result (λ settings. length (names_given (texts_of vars.now)) ≤ 8) }
    ensures given { IfOk result (λ settings. settings ≡ record { root = root; layout = layout; max = max; ro = names_given (texts_of vars.now); list = list_given (texts_of vars.now) }) }
    ensures many { IfErr result (IsForNames (names_given (texts_of vars.now))) }
{
    let ro = few_names(alloc, vars)?;
    let list = list_of(alloc, vars)?;
    Ok(CacheSettings {
        root,
        layout,
        max,
        ro,
        list,
    })
}

/// The settings that the variables give, where a command's words say nothing in their place. Of a name the
/// first pair counts, and an empty value counts as unset; variables that [`VARIABLES`](crate::VARIABLES)
/// doesn't name change nothing.
///
/// # Errors
///
/// The first that applies: `Off` exactly where the cache is turned off, `NoRoot` exactly where no variable says
/// where it lies, `TooManyReadOnly` with the number of different names exactly where more than
/// [`MAX_READ_ONLY`] are given; `NoMemory`, which may also stand in place of the third.
pub fn settings(alloc: Global, vars: &[(String, String)]) -> Result<CacheSettings, SettingsRefusal>
    // It is off, or has no root, exactly where that is said.
    ensures off { (result ≡ Err SettingsRefusal.Off) ↔ IsOff (texts_of vars.now) }
    ensures no_root { (result ≡ Err SettingsRefusal.NoRoot) ↔ HasNoRoot (texts_of vars.now) nothing_over }

    // Too many names are refused with their number; want of memory alone may stand in its place.
    ensures too_many { (n : ℕ) → HasTooMany (texts_of vars.now) nothing_over n → Refuses result (SettingsRefusal.TooManyReadOnly n) }
    ensures number { (n : ℕ) → result ≡ Err (SettingsRefusal.TooManyReadOnly n) → HasTooMany (texts_of vars.now) nothing_over n }

    // Settings are those that the variables give, and nothing is to be refused.
    ensures given { IfOk result (AreGiven (texts_of vars.now) nothing_over) }
{
    settings_over(alloc, vars, Overrides::none())
}

/// The settings that the variables give, but for what a command's words say in their place: a root that is
/// given is the root as it is, and its memory moves into the settings; a layout also names the folder of a
/// root that the variables give; a limit replaces the size, whatever it is. Else as [`settings`].
///
/// # Errors
///
/// As those of [`settings`]. With a root given there is no `NoRoot`.
pub fn settings_over(
    alloc: Global,
    vars: &[(String, String)],
    over: Overrides,
) -> Result<CacheSettings, SettingsRefusal>
    // It is off, or has no root, exactly where that is said.
    ensures off { (result ≡ Err SettingsRefusal.Off) ↔ IsOff (texts_of vars.now) }
    ensures no_root { (result ≡ Err SettingsRefusal.NoRoot) ↔ HasNoRoot (texts_of vars.now) over }

    // Too many names are refused with their number; want of memory alone may stand in its place.
    ensures too_many { (n : ℕ) → HasTooMany (texts_of vars.now) over n → Refuses result (SettingsRefusal.TooManyReadOnly n) }
    ensures number { (n : ℕ) → result ≡ Err (SettingsRefusal.TooManyReadOnly n) → HasTooMany (texts_of vars.now) over n }

    // Settings are those that words and variables give, and nothing is to be refused.
    ensures given { IfOk result (AreGiven (texts_of vars.now) over) }
{
    if is_true(vars, DISABLE) {
        return Err(SettingsRefusal::Off);
    }
    let layout = over.layout.unwrap_or(layout_of_variables(vars));
    let spelled = size_of_text(value_of(vars, MAX_SIZE).unwrap_or(""));
    let max = over.limit.unwrap_or(spelled);
    match root_of(alloc, vars, over.root, layout)? {
        Some(root) => settings_in(alloc, vars, root, layout, max),
        None => Err(SettingsRefusal::NoRoot),
    }
}
