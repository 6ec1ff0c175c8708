ghost use Rattle.std.specs.Prelude.{ℕ, List, Option};
ghost use Rattle.files_api.specs.Streams.{IsWritten, HasFault};

use crate::took::Took;

/// Where bytes go.
pub trait Sink {
    /// The bytes that were written, where the sink tells them.
    ghost written: { Self → Option (List ℕ) };

    /// How many writes failed so far, up to 2^64 - 1.
    ghost faults: { Self → ℕ };

    /// Adds the first of these bytes and says how many: at least one, where there are any. After `Failed`
    /// nothing was added.
    fn write(&mut self, bytes: &[u8]) -> Took
        ensures written { IsWritten result (written self.old) (written self.new) bytes.now }
        ensures cause { HasFault (faults self.old) (faults self.new) result };
}
