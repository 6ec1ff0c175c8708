use cache_types::NoMemory;

/// What is wrong with bytes that were read as an item of a driver: the first that applies, in this order.
#[derive(Clone, Copy, Debug, PartialEq, Eq)]
pub enum ItemRefusal {
    /// Fewer bytes than a driver keys blob, a type, a checksum and a size.
    Short,
    /// The first bytes aren't the driver's keys blob.
    OtherDriver,
    /// The type is neither 0 nor 1.
    BadType,
    /// There are more than [`MAX_KEYS`](cache_types::MAX_KEYS) keys, or no room for them, a checksum and a size.
    BadCount,
    /// The size isn't the number of bytes after it, or is above [`MAX_BLOB`](cache_types::MAX_BLOB).
    BadSize,
    /// The checksum isn't that of the bytes after the size.
    BadSum,
    /// Memory ran out.
    NoMemory,
}

impl From<NoMemory> for ItemRefusal {
    ghost use Rattle.std.specs.Prelude.{◌≡◌};
    ghost use Rattle.item_frame.specs.declared.refusal.ItemRefusal.TheVariants as refusals;

    ghost from_gives = { λ _ refusal. refusal ≡ refusals.NoMemory };

    fn from(_error: NoMemory) -> ItemRefusal {
        ItemRefusal::NoMemory
    }
}
