ghost use Rattle.std.specs.Prelude.{◌≡◌};
ghost use Rattle.std.specs.List.{list_all};
ghost use Rattle.path_names.specs.RoNames.{is_ro_byte, is_ro_name};

/// Whether a byte can stand in the name of a read-only database.
fn is_ro_byte(byte: u8) -> bool
    ensures { result ≡ is_ro_byte byte }
{
    0x21 <= byte && byte <= 0x7e && byte != b'/' && byte != b','
}

/// Whether all bytes can.
fn has_ro_bytes(text: &[u8]) -> bool
    ensures { result ≡ list_all is_ro_byte text.now }
{
    text.iter().all(|byte| is_ro_byte(*byte))
}

/// Whether a text can name a read-only database: 1 to 200 bytes from 0x21 to 0x7e without `/` and `,`,
/// which don't begin with `.`, don't end in `_idx` and aren't `foz_cache`. Takes no memory.
#[tactic(auto, unfolding(crate::specs::RoNames::is_ro_name))]
pub fn is_ro_name(text: &[u8]) -> bool
    ensures { result ≡ is_ro_name text.now }
{
    if text.is_empty() {
        return false;
    }
    if text.len() > 200 {
        return false;
    }
    if text.starts_with(b".") {
        return false;
    }
    if text.ends_with(b"_idx") {
        return false;
    }
    if text == b"foz_cache".as_slice() {
        return false;
    }
    has_ro_bytes(text)
}
