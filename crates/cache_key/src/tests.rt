use super::*;
use cache_types::Driver;
use std::test::Fail;

// `sha1sum` of the bytes 01 64 00 67 00 08, eight zero bytes, and 61 62 63.
const DIGITS: &str = "9aa83c5ca69a456bbdf47a83e9ed95453d617662";

#[test]
fn key_of_abc(rt: HostRuntime) -> Result<(), Fail> {
    let driver = Driver::new(rt.alloc(), "d", "g", 0)?;
    let key = compute_key(rt.alloc(), &driver, b"abc")?;
    assert_eq!(rt; key_text(rt.alloc(), &key)?.as_str(), DIGITS);
    assert_eq!(rt; key_of_text(DIGITS)?, key);
    Ok(())
}
