ghost use Rattle.std.specs.Prelude.{◌≡◌, map, find, bytes_eq, string_bytes, option_copied};
ghost use Rattle.std.specs.Char.{to_ascii_lowercase};
ghost use Rattle.settings_read.specs.Variables.{texts_of, value_of, is_true_word, is_true};

/// True turns the cache off.
pub const DISABLE: &str = "MESA_SHADER_CACHE_DISABLE";

/// True asks for the layout of a file for each entry.
pub const MULTI_FILE: &str = "MESA_DISK_CACHE_MULTI_FILE";

/// True asks for a Foz database, where the layout of many files isn't asked for.
pub const SINGLE_FILE: &str = "MESA_DISK_CACHE_SINGLE_FILE";

/// Changes nothing: a database is what there is where neither of the other layouts is asked for.
pub const DATABASE: &str = "MESA_DISK_CACHE_DATABASE";

/// The folder that the cache's own folder stands in.
pub const CACHE_DIR: &str = "MESA_SHADER_CACHE_DIR";

/// The same, where the first isn't set.
pub const XDG_CACHE_HOME: &str = "XDG_CACHE_HOME";

/// The user's folder, in whose `.cache` it stands where neither is set.
pub const HOME: &str = "HOME";

/// How large the cache may grow.
pub const MAX_SIZE: &str = "MESA_SHADER_CACHE_MAX_SIZE";

/// The names of read-only databases, with commas between them.
pub const READ_ONLY: &str = "MESA_DISK_CACHE_READ_ONLY_FOZ_DBS";

/// The path of a file that names more of them.
pub const DYNAMIC_LIST: &str = "MESA_DISK_CACHE_READ_ONLY_FOZ_DBS_DYNAMIC_LIST";

/// The names of the variables that settings are read from. No other changes them, so a program need not read
/// the whole environment.
pub const VARIABLES: [&str; 10] = [
    DISABLE,
    MULTI_FILE,
    SINGLE_FILE,
    DATABASE,
    CACHE_DIR,
    XDG_CACHE_HOME,
    HOME,
    MAX_SIZE,
    READ_ONLY,
    DYNAMIC_LIST,
];

/// The words for true, each letter in either case.
const TRUE_WORDS: [&str; 5] = ["1", "true", "yes", "y", "t"];

/// The first pair of a name.
fn first_pair<'a>(vars: &'a [(String, String)], name: &str) -> Option<&'a (String, String)>
    ensures { option_copied result ≡ find (λ pair. bytes_eq (string_bytes pair.0) name.now) vars.now }
{
    vars.iter().find(|pair| pair.0.as_str() == name)
}

/// The value of a variable: that in the first pair of its name, unless it is empty.
pub fn value_of<'a>(vars: &'a [(String, String)], name: &str) -> Option<&'a str>
    ensures { option_copied result ≡ value_of (texts_of vars.now) name.now }
{
    let value = first_pair(vars, name)?.1.as_str();
    if value.is_empty() { None } else { Some(value) }
}

/// Whether a value is this word, each letter in either case.
fn is_word(value: &str, word: &str) -> bool
    ensures { result ≡ bytes_eq (map to_ascii_lowercase value.now) (map to_ascii_lowercase word.now) }
{
    value.eq_ignore_ascii_case(word)
}

/// Whether a value is a word for true.
fn is_true_word(value: &str) -> bool
    ensures { result ≡ is_true_word value.now }
{
    TRUE_WORDS.iter().any(|word| is_word(value, word))
}

/// Whether a variable is set, and true.
pub fn is_true(vars: &[(String, String)], name: &str) -> bool
    ensures { result ≡ is_true (texts_of vars.now) name.now }
{
    match value_of(vars, name) {
        Some(value) => is_true_word(value),
        None => false,
    }
}
