ghost use Rattle.std.specs.Prelude.{◌≡◌, min, IsTrue};
ghost use Rattle.std.specs.Char.{is_ascii_digit};
ghost use Rattle.std.specs.List.{list_all, prefix_len};
ghost use Rattle.std.specs.Str.Parse.{digits_value};
ghost use Rattle.settings_read.specs.Sizes.{unit_of, size_of};

/// 1 GiB: the size of a cache whose text spells none.
const DEFAULT_SIZE: u64 = 1 << 30;

/// 1 TiB: no cache may grow larger.
const MAX_CACHE: u64 = 1 << 40;

/// How many digits stand at the front.
fn digits_in(text: &[u8]) -> usize
    ensures { result ≡ prefix_len is_ascii_digit text.now }
{
    text.iter().take_while(|byte| byte.is_ascii_digit()).count()
}

/// The bytes that a letter stands for, in either case; no letter stands for as many as G.
fn unit_of(letter: &[u8]) -> Option<u64>
    ensures { result ≡ unit_of letter.now }
{
    match letter {
        [b'K' | b'k'] => Some(1 << 10),
        [b'M' | b'm'] => Some(1 << 20),
        [] | [b'G' | b'g'] => Some(1 << 30),
        _ => None,
    }
}

/// The number that digits spell, however many they are; at most that of [`MAX_CACHE`].
fn number_of(digits: &[u8]) -> u64
    requires { IsTrue (list_all is_ascii_digit digits.now) }
    ensures { result ≡ min (digits_value 10 digits.now) MAX_CACHE }
{
    let mut number = 0;
    for digit in digits {
        number = (number * 10 + u64::from(*digit - b'0')).min(MAX_CACHE);
    }
    number
}

/// The size in bytes that a text spells: one or more digits, and at most one letter `K`, `M` or `G` in either
/// case, for powers of 1,024. Without a letter it is as with a `G`.
///
/// A size of 0 and any other text give 1 GiB, and a size above 1 TiB counts as 1 TiB. Takes no memory.
pub fn size_of_text(text: &str) -> u64
    ensures { result ≡ size_of text.now }
{
    let bytes = text.as_bytes();
    let (digits, letter) = bytes.split_at(digits_in(bytes));
    let Some(unit) = unit_of(letter) else {
        return DEFAULT_SIZE;
    };
    match number_of(digits).saturating_mul(unit) {
        0 => DEFAULT_SIZE,
        size => size.min(MAX_CACHE),
    }
}
