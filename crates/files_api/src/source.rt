ghost use Rattle.std.specs.Prelude.{ℕ, List, Option};
ghost use Rattle.files_api.specs.Streams.{IsRead, HasFault};

use crate::took::Took;

/// Where bytes come from.
pub trait Source {
    /// The bytes that are left, where the source tells them.
    ghost left: { Self → Option (List ℕ) };

    /// How many reads failed so far, up to 2^64 - 1.
    ghost faults: { Self → ℕ };

    /// Copies the next bytes to the front of the slice and says how many: 0 for a slice that isn't empty is the
    /// end. After `Failed` the source is as before. Behind the bytes that were copied anything may stand in the slice.
    fn read(&mut self, into: &mut [u8]) -> Took
        ensures read { IsRead result (left self.old) (left self.new) into.new }
        ensures cause { HasFault (faults self.old) (faults self.new) result };
}
