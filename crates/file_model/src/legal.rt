ghost use Rattle.std.specs.Prelude.{◌≡◌, ◌↔◌, IsTrue, IfOk, None, false};
ghost use Rattle.file_log.specs.declared.item.LogItem.TheVariants as items;
ghost use Rattle.cache_types.specs.declared.name.Name.TheVariants.{Ro, RoIdx};
ghost use Rattle.file_log.specs.Legal.{IsLegal, IsPut, MayQueue, MayWrite, MayInstall};
ghost use Rattle.file_log.specs.State.{first, state_of, disk_of};
ghost use Rattle.file_model.specs.FirstIllegal.{IsFirstIllegal};
ghost use Rattle.file_model.specs.Queues.{AreQueues};

use crate::queues::Queues;
use crate::world::{World, text_known};
use cache_types::{Bytes, Name, NoMemory, Request, Text, Who};
use file_log::{Call, LogItem, Reply, Ticket, request_known};

/// How many jobs may wait in a process's queue.
const LONGEST_QUEUE: usize = 32;

/// The number of the first item that can't come at its place, in a log from the files that a world had at
/// first; `None` where all can.
pub fn first_illegal(start: &World, log: &[LogItem]) -> Result<Option<u64>, NoMemory>
    ensures { IfOk result (IsFirstIllegal (first start.now.past.start) log.now) }
{
    let mut world = start.opening()?;
    let mut queues = Queues::new(start.alloc());
    for (index, item) in log.iter().enumerate() {
        if !world.can_come(&queues, item)? {
            return Ok(Some(index as u64));
        }
        queues.follow(item)?;
        world.repeat(item)?;
    }
    Ok(None)
}

/// Whether a request is a put.
fn is_put(request: &Request) -> bool
    ensures { IsTrue result ↔ IsPut request.now }
{
    match request {
        Request::Put {
            store: _,
            driver: _,
            key: _,
            meta: _,
            blob: _,
            limit: _,
        } => true,
        _ => false,
    }
}

impl World {
    /// Whether a process goes on.
    fn is_alive(&self, who: Who) -> bool
        ensures { IsTrue result ↔ ((state_of self.now.past).halted who.process ≡ false) }
    {
        !self.is_halted(who.process)
    }

    /// Whether a job can be put into a process's queue under this ticket.
    fn can_queue(&self, queues: &Queues, process: u32, ticket: Ticket, request: &Request) -> bool
        requires { AreQueues queues.now (state_of self.now.past) }
        ensures { IsTrue result ↔ MayQueue (state_of self.now.past) process ticket request.now }
    {
        request_known(request);
        !self.is_halted(process)
            && queues.waiting_len(process) < LONGEST_QUEUE
            && !queues.was_used(process, ticket)
            && is_put(request)
    }

    /// Whether a seat can take the front job of its process's queue.
    fn can_take(&self, queues: &Queues, who: Who, ticket: Ticket) -> bool
        requires { AreQueues queues.now (state_of self.now.past) }
        ensures { IsTrue result ↔ IsLegal (state_of self.now.past) (items.Taken who ticket) }
    {
        self.is_alive(who) && queues.is_front(who.process, ticket)
    }

    /// Whether a seat can make a call that is answered so.
    fn can_do(&self, who: Who, call: &Call, reply: &Reply) -> Result<bool, NoMemory>
        ensures { IfOk result (λ can. IsTrue can ↔ IsLegal (state_of self.now.past) (items.Did who call.now reply.now)) }
    {
        call.known();
        if !self.is_alive(who) {
            return Ok(false);
        }
        self.tables().can_answer(self.alloc(), who, call, reply)
    }

    /// Whether a seat can write a byte of this value through a slot.
    fn can_write(&self, who: Who, slot: u8, value: u8) -> bool
        ensures { IsTrue result ↔ (((state_of self.now.past).halted who.process ≡ false) × MayWrite (disk_of self.now.past) who slot value) }
    {
        let _byte = value;
        self.is_alive(who) && self.tables().is_ready(who, slot)
    }

    /// Whether a name has no file.
    fn lacks(&self, name: &Name) -> bool
        ensures { IsTrue result ↔ ((disk_of self.now.past).names name.now ≡ None) }
    {
        self.tables().lacks(name)
    }

    /// Whether a read-only database can be brought.
    fn can_install(
        &self,
        root: u32,
        name: &Text,
        main: &Bytes,
        index: &Bytes,
    ) -> Result<bool, NoMemory>
        ensures { IfOk result (λ can. IsTrue can ↔ MayInstall (disk_of self.now.past) root name.now main.now index.now) }
    {
        main.known();
        index.known();
        let main_name = Name::Ro {
            root,
            name: name.copy()?,
        };
        let index_name = Name::RoIdx {
            root,
            name: name.copy()?,
        };
        Ok(self.lacks(&main_name) && self.lacks(&index_name))
    }

    /// Whether an item can come now, where these are the queues.
    fn can_come(&self, queues: &Queues, item: &LogItem) -> Result<bool, NoMemory>
        requires { AreQueues queues.now (state_of self.now.past) }
        ensures { IfOk result (λ can. IsTrue can ↔ IsLegal (state_of self.now.past) item.now) }
    {
        match item {
            LogItem::Queued {
                process,
                ticket,
                request,
            } => Ok(self.can_queue(queues, *process, *ticket, request)),
            LogItem::Taken { who, ticket } => Ok(self.can_take(queues, *who, *ticket)),
            LogItem::Did { who, call, reply } => self.can_do(*who, call, reply),
            LogItem::Begin { who, request } => {
                request_known(request);
                Ok(self.is_alive(*who))
            }
            LogItem::Byte {
                who,
                slot,
                at: _,
                value,
            } => Ok(self.can_write(*who, *slot, *value)),
            LogItem::Failed { who, memory: _ } => Ok(self.is_alive(*who)),
            LogItem::Evict {
                who,
                store: _,
                driver,
                key,
            } => {
                driver.known();
                key.known();
                Ok(self.is_alive(*who))
            }
            LogItem::End { who, answer: _ } => Ok(self.is_alive(*who)),
            LogItem::Install {
                root,
                name,
                main,
                index,
            } => self.can_install(*root, name, main, index),
            LogItem::SetList { text } => {
                text_known(text);
                Ok(true)
            }
            LogItem::Stop { process: _ } => Ok(true),
        }
    }
}
