use cache_types::NoMemory;

/// Why there is no such item.
#[derive(Clone, Copy, Debug, PartialEq, Eq)]
pub enum ItemError {
    /// The blob has so many bytes, more than [`MAX_BLOB`](cache_types::MAX_BLOB).
    TooLarge(u64),
    /// The meta has so many keys, more than [`MAX_KEYS`](cache_types::MAX_KEYS).
    TooManyKeys(u64),
    /// Memory ran out.
    NoMemory,
}

impl From<NoMemory> for ItemError {
    ghost use Rattle.std.specs.Prelude.{◌≡◌};
    ghost use Rattle.item_frame.specs.declared.error.ItemError.TheVariants as errors;

    ghost from_gives = { λ _ error. error ≡ errors.NoMemory };

    fn from(_error: NoMemory) -> ItemError {
        ItemError::NoMemory
    }
}
