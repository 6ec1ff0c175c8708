use cache_types::Who;
use file_log::{Call, Reply};
use files_api::Files;
use memory_files::MemFiles;

/// Files in memory, of which a lock may be held through some tries by someone who isn't in their log.
#[derive(Drop)]
pub struct RowFiles {
    /// The files.
    pub inner: MemFiles,
    /// The next so many tries of a lock find it held.
    pub tries: u64,
    /// So many did.
    pub held: u64,
}

impl RowFiles {
    ghost use Rattle.std.specs.Prelude.{◌≡◌, IsTrue};
    ghost use Rattle.file_log.specs.Exchange.{MayBeHeld};

    /// These files, of which no lock is held so.
    pub fn of(inner: MemFiles) -> RowFiles
        ensures { ⟦<RowFiles as Files>⟧.seen result ≡ ⟦<MemFiles as Files>⟧.seen inner }
    {
        RowFiles {
            inner,
            tries: 0,
            held: 0,
        }
    }

    /// Whether this call is answered Held in the files' place.
    fn is_held(&mut self, call: &Call) -> bool
        ensures inner { self.new.inner ≡ self.old.inner }
        ensures lock { IsTrue result → MayBeHeld call.now }
    {
        match call {
            Call::TryLock { .. } if self.tries > 0 => {
                self.tries = self.tries.saturating_sub(1);
                self.held = self.held.saturating_add(1);
                true
            }
            _ => false,
        }
    }
}

impl Files for RowFiles {
    ghost use Rattle.std.specs.Prelude.{None};

    ghost history = { λ _. None };

    ghost me = { λ f. ⟦<MemFiles as Files>⟧.me f.inner };

    ghost seen = { λ f. ⟦<MemFiles as Files>⟧.seen f.inner };

    ghost faults = { λ f. ⟦<MemFiles as Files>⟧.faults f.inner };

    fn call(&mut self, c: Call) -> Reply {
        if self.is_held(&c) {
            return Reply::Held;
        }
        self.inner.call(c)
    }

    fn known(&self) {}
}
