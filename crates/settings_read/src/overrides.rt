ghost use Rattle.std.specs.Prelude.{◌≡◌};
ghost use Rattle.settings_read.specs.Overridden.{nothing_over};

use cache_types::{Layout, Text};

/// What the words of a command say in place of the variables. What they don't say, the variables do.
#[derive(Drop)]
pub struct Overrides {
    /// The root folder itself, as it is: no folder of the layout's is added.
    pub root: Option<Text>,
    /// The layout of the store.
    pub layout: Option<Layout>,
    /// How many bytes the cache may have.
    pub limit: Option<u64>,
}

impl Overrides {
    /// Words that say nothing. Takes no memory.
    pub fn none() -> Overrides
        ensures { result ≡ nothing_over }
    {
        Overrides {
            root: None,
            layout: None,
            limit: None,
        }
    }
}
