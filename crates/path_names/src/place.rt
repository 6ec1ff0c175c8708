ghost use Rattle.std.specs.Prelude.{◌≡◌, ◌++◌, ◌∷◌, [], codes, IfOk};
ghost use Rattle.hex.specs.Hex.{encode_lower};
ghost use Rattle.cache_key.specs.Digits.{digits_of};
ghost use Rattle.path_names.specs.Paths.{entry_of};

use crate::digits::{byte_digits, digits_text, key_digits};
use cache_types::{Key, NoMemory, Text};
use std::alloc::Global;

/// At most so many bytes stand after a root, but for the longest name of all: a slash, the 200 bytes of a
/// name, and `_idx.foz`.
const MAX_PLACE: usize = 209;

/// The path of a file of this name and end in a root.
pub fn in_root(alloc: Global, root: &str, name: &str, end: &str) -> Result<Text, NoMemory>
    ensures { IfOk result (λ t. t ≡ root.now ++ (codes "/" ++ (name.now ++ end.now))) }
{
    let mut path = String::with_capacity(alloc, root.len() + MAX_PLACE)?;
    path.push_str(root)?;
    path.push_str("/")?;
    path.push_str(name)?;
    path.push_str(end)?;
    Ok(Text::from_string(path))
}

/// The path of a file of this name and end in a folder of a root.
fn in_folder(
    alloc: Global,
    root: &str,
    folder: &str,
    name: &str,
    end: &str,
) -> Result<Text, NoMemory>
    ensures { IfOk result (λ t. t ≡ root.now ++ (codes "/" ++ (folder.now ++ (codes "/" ++ (name.now ++ end.now))))) }
{
    let mut path = String::with_capacity(alloc, root.len() + MAX_PLACE)?;
    path.push_str(root)?;
    path.push_str("/")?;
    path.push_str(folder)?;
    path.push_str("/")?;
    path.push_str(name)?;
    path.push_str(end)?;
    Ok(Text::from_string(path))
}

/// The path of a folder's lock file: the folder is named by the digits of its byte.
pub fn of_lock(alloc: Global, root: &str, byte: u8) -> Result<Text, NoMemory>
    ensures { IfOk result (λ t. t ≡ root.now ++ (codes "/" ++ (encode_lower (byte ∷ []) ++ codes "/lock"))) }
{
    let digits = byte_digits(byte);
    in_folder(alloc, root, digits_text(&digits), "lock", "")
}

/// The path of an entry, with this end: the first two digits of its key name the folder.
pub fn of_entry(alloc: Global, root: &str, key: &Key, end: &str) -> Result<Text, NoMemory>
    ensures { IfOk result (λ t. t ≡ root.now ++ (codes "/" ++ entry_of (digits_of key.now) end.now)) }
{
    let digits = key_digits(key);
    let (folder, rest) = digits.split_at(2);

    in_folder(alloc, root, digits_text(folder), digits_text(rest), end)
}
