ghost use Rattle.std.specs.Prelude.{◌≡◌, ◌==◌, ◌↔◌, ℕ, List, length, position, IfSome, IsNone};
ghost use Rattle.cache_types.specs.Driver.{DriverKeys, blob_of, Fronts, HasNoFront};
ghost use Rattle.cache_types.specs.Front.{SplitsText, HasFlags, IsFrontOf};

use crate::limits::{CACHE_VERSION, MAX_DRIVER_TEXT, POINTER_SIZE};

/// A driver blob in front of some bytes: the lengths of its two texts, and its flags.
#[derive(Clone, Copy, Debug, PartialEq, Eq)]
pub struct Front {
    pub id_len: u64,
    pub gpu_len: u64,
    pub flags: u64,
}

/// The place of the first zero byte.
fn first_zero(bytes: &[u8]) -> Option<usize>
    ensures { result ≡ position (λ b. b == 0) bytes.now }
{
    bytes.iter().position(|byte| *byte == 0)
}

/// The text in front of the bytes, and what follows its zero byte.
fn split_text(bytes: &[u8]) -> Option<(&[u8], &[u8])>
    ensures found { IfSome result (λ p. SplitsText bytes.now p.0.now p.1.now) }
    ensures none { IsNone result → (text rest : List ℕ) → SplitsText bytes.now text rest → ⊥ }
{
    let end = first_zero(bytes)?;
    if end > MAX_DRIVER_TEXT {
        return None;
    }
    Some((&bytes[..end], &bytes[end + 1..]))
}

/// The flags in front of the bytes, behind the size of a pointer.
fn read_flags(bytes: &[u8]) -> Option<u64>
    ensures found { IfSome result (λ flags. (rest : List ℕ) × HasFlags bytes.now flags rest) }
    ensures none { IsNone result → (flags : ℕ) (rest : List ℕ) → HasFlags bytes.now flags rest → ⊥ }
{
    let [POINTER_SIZE, rest @ ..] = bytes else {
        return None;
    };
    let flags = rest.first_chunk::<8>()?;
    Some(u64::from_le_bytes(*flags))
}

/// The driver blob in front of the bytes, and None exactly where there is none.
pub fn front_of(bytes: &[u8]) -> Option<Front>
    ensures found { IfSome result (λ front. IsFrontOf bytes.now front) }
    ensures none { IsNone result → HasNoFront bytes.now }
{
    let [CACHE_VERSION, rest @ ..] = bytes else {
        return None;
    };
    let (id, rest) = split_text(rest)?;
    let (gpu, rest) = split_text(rest)?;
    let flags = read_flags(rest)?;
    Some(Front {
        id_len: id.len() as u64,
        gpu_len: gpu.len() as u64,
        flags,
    })
}

/// The length in bytes of the driver blob in front of the bytes, 12 to 522, and None exactly where no
/// driver's blob stands there. Takes no memory.
pub fn front_len(bytes: &[u8]) -> Option<u64>
    ensures found { IfSome result (λ n. (d : DriverKeys) × Fronts bytes.now d × (n ≡ length (blob_of d))) }
    ensures only { (d : DriverKeys) → Fronts bytes.now d → result ≡ Some (length (blob_of d)) }
    ensures none { IsNone result ↔ HasNoFront bytes.now }
{
    let front = front_of(bytes)?;
    Some(front.id_len + front.gpu_len + 12)
}
