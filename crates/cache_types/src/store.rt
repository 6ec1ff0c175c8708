/// How a store keeps its blobs.
#[derive(Clone, Copy, Debug, PartialEq, Eq)]
pub enum Layout {
    /// A file for each entry.
    Folder,
    /// One data file and one index, with eviction by last access.
    Database,
    /// A Foz database: one file that only grows, and its index.
    Foz,
}

/// A store: a root folder, by its number, with a layout.
#[derive(Clone, Copy, Debug, PartialEq, Eq)]
pub struct Store {
    pub root: u32,
    pub layout: Layout,
}
