ghost use Rattle.std.specs.Prelude.{◌≡◌, IfOk};

use crate::call::Call;
use crate::reply::Reply;
use crate::ticket::Ticket;
use cache_types::{Answer, Bytes, Driver, Key, NoMemory, Request, Store, Text, Who};
use std::alloc::Global;

/// One thing that was done, by whom. A log is a list of them.
#[derive(Debug)]
pub enum LogItem {
    /// A job was put into a process's queue.
    Queued {
        process: u32,
        ticket: Ticket,
        request: Request,
    },
    /// A seat took the front job of its process's queue.
    Taken {
        who: Who,
        ticket: Ticket,
    },
    /// An operation began.
    Begin {
        who: Who,
        request: Request,
    },
    /// A call was made and answered.
    Did {
        who: Who,
        call: Call,
        reply: Reply,
    },
    /// One byte was written.
    Byte {
        who: Who,
        slot: u8,
        at: u64,
        value: u8,
    },
    /// A call failed, or was refused memory.
    Failed {
        who: Who,
        memory: bool,
    },
    /// An entry is about to go, or goes.
    Evict {
        who: Who,
        store: Store,
        driver: Driver,
        key: Key,
    },
    /// An operation ended.
    End {
        who: Who,
        answer: Answer,
    },
    /// A process was stopped: its slots are empty and its locks free, and what it wrote stays.
    Stop {
        process: u32,
    },
    /// A read-only database was installed, with its entries and its rows.
    Install {
        root: u32,
        name: Text,
        main: Bytes,
        index: Bytes,
    },
    /// The list of read-only databases was set, or taken away.
    SetList {
        text: Option<Bytes>,
    },
}

impl Drop for LogItem {
    fn drop(self) {
        match self {
            LogItem::Queued {
                process: _,
                ticket: _,
                request: _request,
            } => {}
            LogItem::Taken { who: _, ticket: _ } => {}
            LogItem::Begin {
                who: _,
                request: _request,
            } => {}
            LogItem::Did {
                who: _,
                call: _call,
                reply: _reply,
            } => {}
            LogItem::Byte {
                who: _,
                slot: _,
                at: _,
                value: _,
            } => {}
            LogItem::Failed { who: _, memory: _ } => {}
            LogItem::Evict {
                who: _,
                store: _,
                driver: _driver,
                key: _,
            } => {}
            LogItem::End {
                who: _,
                answer: _answer,
            } => {}
            LogItem::Stop { process: _ } => {}
            LogItem::Install {
                root: _,
                name: _name,
                main: _main,
                index: _index,
            } => {}
            LogItem::SetList { text: _text } => {}
        }
    }
}

/// The same bytes in memory of their own, where there are any.
fn copy_text(text: &Option<Bytes>) -> Result<Option<Bytes>, NoMemory>
    ensures { IfOk result (λ t. t ≡ text.now) }
{
    match text {
        None => Ok(None),
        Some(text) => Ok(Some(text.copy()?)),
    }
}

impl LogItem {
    /// The same in memory of its own.
    pub fn copy(&self, alloc: Global) -> Result<LogItem, NoMemory>
        ensures { IfOk result (λ i. i ≡ self.now) }
    {
        match self {
            LogItem::Queued {
                process,
                ticket,
                request,
            } => Ok(LogItem::Queued {
                process: *process,
                ticket: *ticket,
                request: request.copy(alloc)?,
            }),
            LogItem::Taken { who, ticket } => Ok(LogItem::Taken {
                who: *who,
                ticket: *ticket,
            }),
            LogItem::Begin { who, request } => Ok(LogItem::Begin {
                who: *who,
                request: request.copy(alloc)?,
            }),
            LogItem::Did { who, call, reply } => {
                let call = call.copy(alloc)?;
                let reply = reply.copy()?;
                Ok(LogItem::Did {
                    who: *who,
                    call,
                    reply,
                })
            }
            LogItem::Byte {
                who,
                slot,
                at,
                value,
            } => Ok(LogItem::Byte {
                who: *who,
                slot: *slot,
                at: *at,
                value: *value,
            }),
            LogItem::Failed { who, memory } => Ok(LogItem::Failed {
                who: *who,
                memory: *memory,
            }),
            LogItem::Evict {
                who,
                store,
                driver,
                key,
            } => Ok(LogItem::Evict {
                who: *who,
                store: *store,
                driver: driver.copy()?,
                key: *key,
            }),
            LogItem::End { who, answer } => Ok(LogItem::End {
                who: *who,
                answer: answer.copy(alloc)?,
            }),
            LogItem::Stop { process } => Ok(LogItem::Stop { process: *process }),
            LogItem::Install {
                root,
                name,
                main,
                index,
            } => {
                let name = name.copy()?;
                let main = main.copy()?;
                let index = index.copy()?;
                Ok(LogItem::Install {
                    root: *root,
                    name,
                    main,
                    index,
                })
            }
            LogItem::SetList { text } => Ok(LogItem::SetList {
                text: copy_text(text)?,
            }),
        }
    }
}
