use cache_types::{Name, Who};

/// A name, and the number of the file that it has.
#[derive(Debug)]
pub struct NamedFile {
    pub name: Name,
    pub file: usize,
}

impl Drop for NamedFile {
    fn drop(self) {
        let NamedFile {
            name: _name,
            file: _,
        } = self;
    }
}

/// A filled slot of a seat, and the number of the file that it stands for.
#[derive(Clone, Copy, Debug, PartialEq, Eq)]
pub struct OpenSlot {
    pub who: Who,
    pub slot: u8,
    pub file: usize,
}
