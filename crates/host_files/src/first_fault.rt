ghost use Rattle.std.specs.Prelude.{◌≡◌};

use crate::reason::Reason;
use cache_types::Text;

/// The first call of the files that failed: the path that it named, and why it failed.
#[derive(Debug, Drop)]
pub struct FirstFault {
    pub(crate) path: Text,
    pub(crate) reason: Reason,
}

impl FirstFault {
    /// The path that the call named: of a slot the one that it was opened by, of a renaming the new one, of a listing the
    /// folder's. Empty where the call names no file, or one that has no path.
    pub fn path(&self) -> &str
        ensures { result.now ≡ self.now.path }
    {
        self.path.as_str()
    }

    /// Why it failed.
    pub fn reason(&self) -> Reason
        ensures { result ≡ self.now.reason }
    {
        self.reason
    }
}
