/// A command: the first word.
#[derive(Clone, Copy, Debug, PartialEq, Eq)]
pub enum Word {
    /// `key`: the key of some content.
    Key,
    /// `put`: to keep a blob.
    Put,
    /// `get`: to look a blob up.
    Get,
    /// `mark`: to note that a key is there.
    Mark,
    /// `has`: whether a key was noted.
    Has,
    /// `list`: the keys of a driver.
    List,
    /// `verify`: what each entry of a store is worth.
    Verify,
    /// `trim`: to make a store smaller.
    Trim,
    /// `settings`: what the settings are.
    Settings,
    /// `batch`: many puts and gets.
    Batch,
    /// `drill`: to play a schedule and check it.
    Drill,
}
