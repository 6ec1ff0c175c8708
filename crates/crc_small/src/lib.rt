//! CRC-32 with the reflected polynomial 0xEDB88320, at once or over pieces.
#![tactic(auto)]

mod tables;

ghost use Rattle.std.specs.Prelude.{◌≡◌};
ghost use Rattle.crc_small.specs.Sum.{Sum, byte_step, first_state, finished, state_after};

use crate::tables::entry;

/// The CRC-32 of the bytes. It takes no memory and refuses nothing.
pub fn crc32(bytes: &[u8]) -> u32
    ensures { result ≡ Sum bytes.now }
{
    finish(update(start(), bytes))
}

/// The state before the first byte. With `update` and `finish` a sum is taken over pieces: the
/// pieces one after another give the sum of the bytes that they make together.
pub fn start() -> u32
    ensures { result ≡ first_state }
{
    u32::MAX
}

/// The state after the bytes, from any state. It takes no memory and refuses nothing.
pub fn update(state: u32, bytes: &[u8]) -> u32
    ensures { result ≡ state_after state bytes.now }
{
    let (eights, rest) = bytes.as_chunks::<8>();
    let mut after = state;
    for eight in eights {
        after = next_eight(after, *eight);
    }
    for byte in rest {
        after = next(after, *byte);
    }
    after
}

/// The CRC-32 of the bytes that led from `start` to the state.
pub fn finish(state: u32) -> u32
    ensures { result ≡ finished state }
{
    !state
}

/// One byte: eight steps of the state's lowest byte with it, and the rest of the state moved down.
fn next(state: u32, byte: u8) -> u32
    ensures { result ≡ byte_step state byte }
{
    let low = (state ^ u32::from(byte)) & 0xff;
    entry(0, low as u8) ^ (state >> 8)
}

/// Eight bytes in one step. The sum is linear, so each byte, the first four with the state's bytes in
/// them, comes alone to what the table of its place says.
fn next_eight(state: u32, bytes: [u8; 8]) -> u32
    ensures { result ≡ state_after state bytes }
{
    let word = u64::from(state) ^ u64::from_le_bytes(bytes);
    let [b0, b1, b2, b3, b4, b5, b6, b7] = word.to_le_bytes();
    entry(0, b7)
        ^ entry(1, b6)
        ^ entry(2, b5)
        ^ entry(3, b4)
        ^ entry(4, b3)
        ^ entry(5, b2)
        ^ entry(6, b1)
        ^ entry(7, b0)
}

#[cfg(test)]
mod tests {
    use super::*;

    // The sums are those of zlib's crc32.
    #[test]
    fn known_texts(rt: HostRuntime) {
        assert_eq!(rt; crc32(b""), 0);
        assert_eq!(rt; crc32(b"abc"), 0x352441c2);
        assert_eq!(rt; crc32(b"123456789"), 0xcbf43926);
    }

    // Lengths round the step of eight bytes, each at once and in two pieces. The sums are zlib's of the
    // bytes i * 7 + 3, modulo 256.
    #[test]
    fn lengths_and_pieces(rt: HostRuntime) {
        let mut pattern = [0u8; 1000];
        for i in 0..1000usize {
            pattern[i] = ((i * 7 + 3) % 256) as u8;
        }
        let sums = [
            (1usize, 0x4b0bbe37u32),
            (7, 0x54491cdb),
            (8, 0xe2e35978),
            (9, 0x3d351cfe),
            (15, 0x7c619edc),
            (16, 0x191f3d9f),
            (17, 0x7ba75ee3),
            (64, 0xcbd9ecf0),
            (1000, 0x17bc2a46),
        ];
        for (len, sum) in sums {
            assert!(rt; len <= 1000);
            let bytes = &pattern[..len];
            let (left, right) = (&bytes[..len / 3], &bytes[len / 3..]);
            assert_eq!(rt; crc32(bytes), sum, "{len} bytes");
            assert_eq!(rt;
                finish(update(update(start(), left), right)),
                sum,
                "{len} bytes in two pieces"
            );
        }
    }
}
