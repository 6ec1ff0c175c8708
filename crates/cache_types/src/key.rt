ghost use Rattle.std.specs.Prelude.{◌≡◌, length};

/// What a blob is put and looked up under: 20 bytes, as SHA-1 gives them.
#[derive(Clone, Copy, Debug, PartialEq, Eq, PartialOrd, Ord, Hash)]
pub struct Key {
    pub bytes: [u8; 20],
}

/// A text that isn't a key: not 40 hexadecimal digits.
#[derive(Clone, Copy, Debug, PartialEq, Eq)]
pub struct BadKey;

impl Key {
    /// What is known of every key: it has 20 bytes.
    pub fn known(&self)
        ensures { length self.now.bytes ≡ 20 }
    {
        let _len = self.bytes.len();
    }
}
