ghost use Rattle.std.specs.Prelude.{◌≡◌, IfOk};

use crate::key_list::KeyList;
use crate::memory::NoMemory;

/// What an item says beside its blob.
#[derive(Debug)]
pub enum Meta {
    /// Nothing.
    Unknown,
    /// The keys of the GLSL sources that were linked, at most [`MAX_KEYS`](crate::MAX_KEYS).
    Glsl(KeyList),
}

impl Drop for Meta {
    fn drop(self) {
        match self {
            Meta::Unknown => {}
            Meta::Glsl(_glsl) => {}
        }
    }
}

impl Meta {
    /// The same in memory of its own.
    pub fn copy(&self) -> Result<Meta, NoMemory>
        ensures { IfOk result (λ m. m ≡ self.now) }
    {
        match self {
            Meta::Unknown => Ok(Meta::Unknown),
            Meta::Glsl(keys) => Ok(Meta::Glsl(keys.copy()?)),
        }
    }
}
