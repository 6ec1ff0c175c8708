/// A key has so many bytes.
pub const KEY_LEN: usize = 20;

/// At most so many bytes of a driver's id, and of its GPU name.
pub const MAX_DRIVER_TEXT: usize = 255;

/// The cache's version, the first byte of every driver blob.
pub const CACHE_VERSION: u8 = 1;

/// The size of a pointer in bytes, as driver blobs tell it.
pub const POINTER_SIZE: u8 = 8;

/// At most so many GLSL keys stand in an item.
pub const MAX_KEYS: usize = 64;

/// At most so many bytes are one blob: 16 MiB.
pub const MAX_BLOB: usize = 16_777_216;

/// The longest item in bytes: the longest driver blob, a type, a full count of keys, a sum, a size and
/// the longest blob.
pub const MAX_ITEM: u64 = 16_779_034;
