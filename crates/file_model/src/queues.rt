ghost use Rattle.std.specs.Prelude.{◌≡◌, ◌↔◌, ◌∷◌, ◌++◌, [], ℕ, IsTrue, OnOk, drop, length, nat_eq, if◌then◌else◌};
ghost use Rattle.cache_types.specs.declared.request.Request.{Request};
ghost use Rattle.file_log.specs.declared.item.LogItem.TheVariants as items;
ghost use Rattle.file_log.specs.declared.ticket.Ticket.{Ticket};
ghost use Rattle.file_log.specs.Disk.{Start};
ghost use Rattle.file_log.specs.Legal.{IsFront};
ghost use Rattle.file_log.specs.State.{State, first, after};
ghost use Rattle.file_model.specs.Queues.{waiting_in, is_used};

use cache_types::{NoMemory, Who};
use file_log::{LogItem, Ticket};
use std::alloc::Global;
use std::collections::{HashMap, HashSet};

/// A ticket that a process's queue has had.
#[derive(Clone, Copy, Debug, PartialEq, Eq, Hash)]
pub struct UsedTicket {
    pub process: u32,
    pub side: u8,
    pub number: u64,
}

/// The queues of all processes: the tickets that wait in each, in their order, and all that ever did.
#[derive(Debug)]
pub struct Queues {
    pub alloc: Global,
    pub waiting: HashMap<u32, Vec<Ticket>>,
    pub used: HashSet<UsedTicket>,
}

impl Drop for Queues {
    fn drop(self) {
        let Queues {
            alloc: _,
            waiting: _waiting,
            used: _used,
        } = self;
    }
}

/// Takes the first ticket out, if there is one.
fn take_first(tickets: &mut Vec<Ticket>)
    ensures { tickets.new.items ≡ drop 1 tickets.old.items }
{
    if !tickets.is_empty() {
        let _taken = tickets.remove(0);
    }
}

/// Whether a ticket is the first of these.
fn is_first(tickets: &[Ticket], ticket: Ticket) -> bool
    ensures { IsTrue result ↔ IsFront tickets.now ticket }
{
    match tickets {
        [] => false,
        [first, ..] => *first == ticket,
    }
}

impl Queues {
    ghost use Rattle.file_model.specs.Queues.{AreQueues};

    /// No jobs. Takes no memory.
    pub fn new(alloc: Global) -> Queues
        ensures { (start : Start) → AreQueues result (first start) }
    {
        Queues {
            alloc,
            waiting: HashMap::new(alloc),
            used: HashSet::new(alloc),
        }
    }

    /// How many jobs of a process wait.
    pub fn waiting_len(&self, process: u32) -> usize
        ensures { result ≡ length (waiting_in self.now process) }
    {
        match self.waiting.get(&process) {
            None => 0,
            Some(tickets) => tickets.len(),
        }
    }

    /// Whether a ticket is that of the front job of a process's queue.
    pub fn is_front(&self, process: u32, ticket: Ticket) -> bool
        ensures { IsTrue result ↔ IsFront (waiting_in self.now process) ticket }
    {
        match self.waiting.get(&process) {
            None => false,
            Some(tickets) => is_first(tickets, ticket),
        }
    }

    /// Whether a process's queue has had a ticket.
    pub fn was_used(&self, process: u32, ticket: Ticket) -> bool
        ensures { result ≡ is_used self.now process ticket }
    {
        self.used.contains(&UsedTicket {
            process,
            side: ticket.side,
            number: ticket.number,
        })
    }

    /// Puts a ticket at the end of those that wait in a process's queue.
    fn wait(&mut self, process: u32, ticket: Ticket) -> Result<(), NoMemory>
        ensures waits { OnOk result ((p : ℕ) → waiting_in self.new p ≡ (if nat_eq process p then waiting_in self.old p ++ ticket ∷ [] else waiting_in self.old p)) }
        ensures used { self.new.used ≡ self.old.used }
    {
        if let Some(tickets) = self.waiting.get_mut(&process) {
            tickets.push(ticket)?;
            return Ok(());
        }
        let mut tickets = Vec::new(self.alloc);
        tickets.push(ticket)?;
        self.waiting.insert(process, tickets)?;
        Ok(())
    }

    /// Puts a job at the end of its process's queue.
    fn put(&mut self, process: u32, ticket: Ticket) -> Result<(), NoMemory>
        ensures { OnOk result ((s : State) (request : Request) → AreQueues self.old s → AreQueues self.new (after s (items.Queued process ticket request))) }
    {
        self.used.insert(UsedTicket {
            process,
            side: ticket.side,
            number: ticket.number,
        })?;
        self.wait(process, ticket)
    }

    /// Takes the front job out of a process's queue.
    fn take(&mut self, who: Who)
        ensures { (s : State) (ticket : Ticket) → AreQueues self.old s → AreQueues self.new (after s (items.Taken who ticket)) }
    {
        if let Some(tickets) = self.waiting.get_mut(&who.process) {
            take_first(tickets);
        }
    }

    /// Follows an item of the log.
    pub fn follow(&mut self, item: &LogItem) -> Result<(), NoMemory>
        ensures { OnOk result ((s : State) → AreQueues self.old s → AreQueues self.new (after s item.now)) }
    {
        match item {
            LogItem::Queued {
                process,
                ticket,
                request: _,
            } => self.put(*process, *ticket),
            LogItem::Taken { who, ticket: _ } => {
                self.take(*who);
                Ok(())
            }
            _ => Ok(()),
        }
    }
}
