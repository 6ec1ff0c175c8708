ghost use Rattle.std.specs.Prelude.{◌≡◌, ◌∷◌, [], IsAscii};
ghost use Rattle.hex.specs.Hex.{encode_lower};
ghost use Rattle.cache_key.specs.Digits.{digits_of};

use cache_types::Key;
use std::str;

/// The two digits of a byte, in lower case.
pub fn byte_digits(byte: u8) -> [u8; 2]
    ensures digits { result ≡ encode_lower (byte ∷ []) }
    ensures text { IsAscii result }
{
    let mut digits = [0; 2];
    match hex::encode_to_slice([byte], &mut digits) {
        Ok(()) => digits,
        Err(_) => unreachable!(),
    }
}

/// The 40 digits of a key, in lower case.
pub fn key_digits(key: &Key) -> [u8; 40]
    ensures digits { result ≡ digits_of key.now }
    ensures text { IsAscii result }
{
    let mut digits = [0; 40];
    match hex::encode_to_slice(key.bytes, &mut digits) {
        Ok(()) => digits,
        Err(_) => unreachable!(),
    }
}

/// Digits as a text.
pub fn digits_text(digits: &[u8]) -> &str
    requires { IsAscii digits.now }
    ensures { result.now ≡ digits.now }
{
    match str::from_utf8(digits) {
        Ok(text) => text,
        Err(_) => unreachable!(),
    }
}
