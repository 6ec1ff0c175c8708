ghost use Rattle.std.specs.Prelude.{◌≡◌, ◌⊎◌, IfOk, IfErr, option_copied};
ghost use Rattle.std.specs.List.{AllByRecursion};
ghost use Rattle.cache_key.specs.Digits.{IsKeyText, Spells};
ghost use Rattle.cache_main.specs.Keys.{key_word, pieces_of, meta_text, meta_words, HasKeys, SpellEach, IsMetaOf};
ghost use Rattle.cache_main.specs.Top.{RefusesExactly};

use cache_key::key_of_text;
use cache_types::{Key, KeyList, Meta};
use cmd_words::{Command, Word};
use report_text::Status;
use std::alloc::Global;

/// The keys that words name: that of the entry, and what its item says of its sources.
#[derive(Drop)]
pub struct NamedKeys {
    /// KEY.
    pub key: Key,
    /// The keys of `--meta`.
    pub meta: Meta,
}

/// The keys that stand between commas.
///
/// # Errors
///
/// `BadKey` exactly where one of them is no key; `NoMemory`.
fn keys_between_commas(alloc: Global, text: &str) -> Result<KeyList, Status>
    ensures spelled { IfOk result (λ keys. SpellEach (pieces_of text.now) keys) }
    ensures good { IfOk result (λ keys. AllByRecursion IsKeyText (pieces_of text.now)) }
    ensures bad { RefusesExactly result Status.BadKey (AllByRecursion IsKeyText (pieces_of text.now) → ⊥) }
    ensures refused { IfErr result (λ status. (status ≡ Status.BadKey) ⊎ (status ≡ Status.NoMemory)) }
{
    let mut keys = KeyList::new(alloc);
    for piece in text.split(',') {
        let Ok(key) = key_of_text(piece) else {
            return Err(Status::BadKey);
        };
        let Ok(()) = keys.push(key) else {
            return Err(Status::NoMemory);
        };
    }
    Ok(keys)
}

/// The text of `--meta`, where a put has it.
fn meta_text(command: &Command) -> Option<&str>
    ensures { option_copied result ≡ meta_text command.now }
{
    match command.word {
        Word::Put => command.meta(),
        _ => None,
    }
}

/// What `--meta` says of a put's blob.
///
/// # Errors
///
/// `BadKey` exactly where one of its texts is no key; `NoMemory`.
fn meta_of(alloc: Global, command: &Command) -> Result<Meta, Status>
    ensures meta { IfOk result (IsMetaOf (meta_text command.now)) }
    ensures good { IfOk result (λ meta. AllByRecursion IsKeyText (meta_words (meta_text command.now))) }
    ensures bad { RefusesExactly result Status.BadKey (AllByRecursion IsKeyText (meta_words (meta_text command.now)) → ⊥) }
    ensures refused { IfErr result (λ status. (status ≡ Status.BadKey) ⊎ (status ≡ Status.NoMemory)) }
{
    match meta_text(command) {
        Some(text) => match keys_between_commas(alloc, text) {
            Ok(keys) => Ok(Meta::Glsl(keys)),
            Err(status) => Err(status),
        },
        None => Ok(Meta::Unknown),
    }
}

/// The keys that a command's words name.
///
/// # Errors
///
/// `BadKey` exactly where KEY or a text of `--meta` isn't 40 hexadecimal digits; `NoMemory`.
pub fn keys_of(alloc: Global, command: &Command) -> Result<NamedKeys, Status>
    ensures key { IfOk result (λ keys. Spells (key_word command.now) keys.key) }
    ensures meta { IfOk result (λ keys. IsMetaOf (meta_text command.now) keys.meta) }
    ensures bad { RefusesExactly result Status.BadKey (HasKeys command.now → ⊥) }
    ensures good { IfOk result (λ keys. HasKeys command.now) }
    ensures refused { IfErr result (λ status. (status ≡ Status.BadKey) ⊎ (status ≡ Status.NoMemory)) }
{
    let Ok(key) = key_of_text(command.key().unwrap_or("")) else {
        return Err(Status::BadKey);
    };
    match meta_of(alloc, command) {
        Ok(meta) => Ok(NamedKeys { key, meta }),
        Err(status) => Err(status),
    }
}
