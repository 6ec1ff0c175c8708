use thiserror::Error;

/// What is wrong with bytes that were read as a head or as an entry: the first that applies, in this order.
#[derive(Clone, Copy, Debug, PartialEq, Eq, Error)]
pub enum DbRefusal {
    /// Fewer bytes than a head; or than an entry's head, or than that and as many as its item has.
    #[error("Short")]
    Short,
    /// The first eight bytes aren't `MESA_DB` and a zero byte.
    #[error("BadMagic")]
    BadMagic,
    /// The version is one that isn't known.
    #[error("BadVersion")]
    BadVersion,
    /// The identity is 0.
    #[error("BadIdentity")]
    BadIdentity,
    /// An entry's sum isn't that of its item.
    #[error("BadSum")]
    BadSum,
}
