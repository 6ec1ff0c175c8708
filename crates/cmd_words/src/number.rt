ghost use Rattle.std.specs.Prelude.{◌≡◌};
ghost use Rattle.std.specs.Char.{is_ascii_digit};
ghost use Rattle.std.specs.List.{list_all};
ghost use Rattle.cmd_words.specs.Numbers.{number_of, is_numeral};

/// At most so many digits spell a number.
const MAX_DIGITS: usize = 20;

/// Whether all bytes of a text are decimal digits.
fn are_digits(text: &[u8]) -> bool
    ensures { result ≡ list_all is_ascii_digit text.now }
{
    text.iter().all(|byte| byte.is_ascii_digit())
}

/// Whether a text is 1 to 20 decimal digits.
fn is_numeral(text: &[u8]) -> bool
    ensures { result ≡ is_numeral text.now }
{
    !text.is_empty() && text.len() <= MAX_DIGITS && are_digits(text)
}

/// The number that a text spells: 1 to 20 decimal digits, of a number below 2^64. Zeros may stand in front of
/// it. Any other text, also one with a sign or a blank, spells none. Takes no memory.
pub fn number_of_text(text: &str) -> Option<u64>
    ensures { result ≡ number_of text.now }
{
    if is_numeral(text.as_bytes()) {
        text.parse::<u64>().ok()
    } else {
        None
    }
}
