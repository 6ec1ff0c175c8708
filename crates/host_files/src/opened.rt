use cache_types::Text;
use std::fs::File;

/// An open file, and the path that it was opened by.
#[derive(Drop)]
pub struct Opened {
    pub file: File,
    pub path: Text,
}
