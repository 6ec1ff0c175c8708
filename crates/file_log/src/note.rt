ghost use Rattle.std.specs.Prelude.{◌≡◌, IfOk, IsOk};
ghost use Rattle.cache_types.specs.Answers.{IsSmall};
ghost use Rattle.cache_types.specs.declared.seat.Who.{Who};
ghost use Rattle.file_log.specs.Exchange.{item_of_note};
ghost use Rattle.file_log.specs.Legal.{CanCome};
ghost use Rattle.file_log.specs.State.{State};

use crate::known::request_known;
use cache_types::{Answer, Driver, Key, NoMemory, Request, Store};
use std::alloc::Global;

/// What a seat tells the log.
#[derive(Debug, Drop)]
pub enum Note {
    /// An operation begins, which was asked for so.
    Begin(Request),
    /// An entry of this driver and key is about to go.
    Evict {
        store: Store,
        driver: Driver,
        key: Key,
    },
    /// The operation ends with this answer.
    End(Answer),
}

impl Note {
    /// What is known of every note: its item can come at every place.
    pub fn known(&self)
        ensures { (s : State) (who : Who) → CanCome s (item_of_note who self.now) }
    {
        match self {
            Note::Begin(request) => request_known(request),
            Note::Evict {
                store: _,
                driver,
                key,
            } => {
                driver.known();
                key.known();
            }
            Note::End(_) => {}
        }
    }

    /// The same in memory of its own. An End whose answer carries no list takes none.
    pub fn copy(&self, alloc: Global) -> Result<Note, NoMemory>
        ensures ok { IfOk result (λ n. n ≡ self.now) }
        ensures small { (answer : Answer) → self.now ≡ Note.End answer → IsSmall answer → IsOk result }
    {
        match self {
            Note::Begin(request) => Ok(Note::Begin(request.copy(alloc)?)),
            Note::Evict { store, driver, key } => Ok(Note::Evict {
                store: *store,
                driver: driver.copy()?,
                key: *key,
            }),
            Note::End(answer) => Ok(Note::End(answer.copy(alloc)?)),
        }
    }
}
