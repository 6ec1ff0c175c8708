ghost use Rattle.std.specs.Prelude.{◌≡◌, ◌∷◌, [], OnOk, OnErr};
ghost use Rattle.file_log.specs.declared.item.LogItem.TheVariants as items;
ghost use Rattle.file_log.specs.Legal.{IsLegal};
ghost use Rattle.file_log.specs.State.{state_of};
ghost use Rattle.file_model.specs.Held.{told};

use crate::world::World;
use cache_types::{NoMemory, Request, Who};
use file_log::{LogItem, Ticket};

impl World {
    /// Tells that a job was put into a process's queue. A refusal changes nothing.
    pub fn queued(&mut self, process: u32, ticket: Ticket, request: Request) -> Result<(), NoMemory>
        requires legal { IsLegal (state_of self.old.past) (items.Queued process ticket request) }
        ensures ok { OnOk result (self.new ≡ told self.old (items.Queued process ticket request ∷ [])) }
        ensures err { OnErr result (self.new ≡ self.old) }
    {
        self.add_plain(LogItem::Queued {
            process,
            ticket,
            request,
        })
    }

    /// Tells that a seat took the front job of its process's queue. A refusal changes nothing.
    pub fn taken(&mut self, who: Who, ticket: Ticket) -> Result<(), NoMemory>
        requires legal { IsLegal (state_of self.old.past) (items.Taken who ticket) }
        ensures ok { OnOk result (self.new ≡ told self.old (items.Taken who ticket ∷ [])) }
        ensures err { OnErr result (self.new ≡ self.old) }
    {
        self.add_plain(LogItem::Taken { who, ticket })
    }
}
