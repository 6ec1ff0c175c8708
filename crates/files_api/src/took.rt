/// How far a read or a write of a stream came.
#[derive(Clone, Copy, Debug, PartialEq, Eq)]
pub enum Took {
    /// So many bytes.
    Some(u64),
    /// The stream failed, and nothing was read or written.
    Failed,
}
