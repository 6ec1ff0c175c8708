ghost use Rattle.std.specs.Prelude.{◌≡◌, ◌↔◌, IsOk, IfOk};
ghost use Rattle.cache_key.specs.Digits.{digits_of, IsKeyText, Spells};

use cache_types::{BadKey, Key, NoMemory, Text};
use hex::FromHex;
use std::alloc::Global;

/// The 40 digits of a key, in lower case.
pub fn key_text(alloc: Global, key: &Key) -> Result<Text, NoMemory>
    ensures { IfOk result (λ t. t ≡ digits_of key.now) }
{
    let digits = hex::encode(alloc, key.bytes)?;
    Ok(Text::from_string(digits))
}

/// The key that a text spells, in digits of either case. Takes no memory.
///
/// `BadKey` exactly where the text isn't 40 hexadecimal digits.
pub fn key_of_text(text: &str) -> Result<Key, BadKey>
    ensures found { IsOk result ↔ IsKeyText text.now }
    ensures value { IfOk result (Spells text.now) }
{
    match <[u8; 20] as FromHex>::from_hex(text) {
        Ok(bytes) => Ok(Key { bytes }),
        Err(_) => Err(BadKey),
    }
}
