ghost use Rattle.std.specs.Prelude.{◌≡◌, ℕ, Bool, nat_eq, None, OnOk, OnErr};
ghost use Rattle.std.specs.Ordering.{nat_cmp};
ghost use Rattle.std.specs.FinMap as map;
ghost use Rattle.lock_model.specs.Holders.{holder_in as the_holder, freed_of};

use crate::memory::NoMemory;
use std::alloc::Global;
use std::marker::Model;

/// Files, by their numbers, and who holds each: at most one holder a file. Contracts see the map from the
/// files that are held to their holders.
#[derive(Debug, Drop)]
pub struct Holders<H: Copy> {
    held: Vec<(u64, H)>,
}

impl<H: Copy> Model for Holders<H> {
    ghost use Rattle.std.specs.Ordering.{nat_cmp};
    ghost use Rattle.std.specs.FinMap as map;
    ghost use Rattle.std.specs.Coded.{coded_ℕ};
    ghost use Rattle.lock_model.specs.Holders.{Once};

    ghost Value = { map.FinMap nat_cmp H };

    ghost coded = { map.code coded_ℕ H.code };

    ghost view = { λ h. map.from_entries h.held.items };

    ghost invariant = { λ h. Once h.held.items };
}

/// Holders that are freed together.
pub trait Group<H> {
    ghost has: { Self → H → Bool };

    /// Whether a holder is one of them.
    fn has(&self, holder: &H) -> bool
        ensures { result ≡ has self.now holder.now };
}

impl<H: Copy> Holders<H> {
    /// Nobody holds anything. Takes no memory.
    pub fn new(alloc: Global) -> Holders<H>
        ensures { result ≡ map.empty }
    {
        Holders {
            held: Vec::new(alloc),
        }
    }

    /// The holder of a file.
    pub fn holder_of(&self, file: u64) -> Option<H>
        ensures { result ≡ map.get self.now file }
    {
        holder_in(&self.held, file)
    }

    /// Gives a file that nobody holds to a holder. A refusal changes nothing.
    pub fn give(&mut self, file: u64, holder: H) -> Result<(), NoMemory>
        requires { map.get self.old file ≡ None }
        ensures ok { OnOk result (self.new ≡ map.insert self.old file holder) }
        ensures err { OnErr result (self.new ≡ self.old) }
    {
        self.held.insert(0, (file, holder))?;
        Ok(())
    }

    /// Frees a file. Takes no memory.
    pub fn free(&mut self, file: u64)
        ensures { self.new ≡ map.remove self.old file }
    {
        self.held.retain(|held| held.0 != file);
    }

    /// Frees all that these hold. Takes no memory.
    pub fn free_all<G: Group<H>>(&mut self, these: &G)
        ensures { (file : ℕ) → map.get self.new file ≡ freed_of (G.has these.now) (map.get self.old file) }
    {
        self.held.retain(|held| !these.has(&held.1));
    }
}

/// The holder that stands beside a file.
fn holder_in<H: Copy>(held: &[(u64, H)], file: u64) -> Option<H>
    ensures { result ≡ the_holder held.now file }
{
    let mut rest = held;
    while let [first, tail @ ..] = rest {
        if first.0 == file {
            return Some(first.1);
        }
        rest = tail;
    }
    None
}
