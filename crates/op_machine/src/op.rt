ghost use Rattle.std.specs.Prelude.{IfOk, IsOk};
ghost use Rattle.op_machine.specs.Requests.{IsBuilt, IsLargePut, IsOpOf};

use crate::given::Given;
use cache_types::{Answer, MAX_BLOB, NoMemory, Request};
use file_log::Reply;
use files_api::{Machine, Step};
use folder_store::{FolderGet, FolderPut, new_lookup};
use item_frame::write_item;
use std::alloc::Global;

/// The operation of any request that is served, call by call.
#[derive(Debug, Drop)]
pub enum Op {
    /// A lookup in a folder store.
    Get(FolderGet),
    /// A put into a folder store.
    Put(FolderPut),
    /// A put of a blob that is too large, which makes no call.
    Refuse(Given),
}

impl Op {
    /// The operation of a request, which has done nothing yet.
    ///
    /// A put of a blob of more than [`MAX_BLOB`] bytes is refused by an operation that makes no call and answers
    /// `TooLarge` with the blob's length; that takes no memory.
    ///
    /// # Errors
    ///
    /// `NoMemory`, where there is none for the driver or the item.
    pub fn new(alloc: Global, request: &Request) -> Result<Op, NoMemory>
        requires built { IsBuilt request.now }
        ensures made { IfOk result (λ op. IsOpOf request.now op) }
        ensures large { IsLargePut request.now → IsOk result }
    {
        match request {
            Request::Get {
                store,
                driver,
                key,
                ..
            } => {
                let driver = driver.copy()?;
                Ok(Op::Get(new_lookup(store.root, driver, *key)))
            }
            Request::Put {
                store,
                driver,
                key,
                meta,
                blob,
                ..
            } => {
                if blob.len() > MAX_BLOB as u64 {
                    return Ok(Op::Refuse(Given::new(Answer::TooLarge(blob.len()))));
                }
                let Ok(item) = write_item(alloc, driver, meta, blob.as_slice()) else {
                    return Err(NoMemory);
                };
                let driver = driver.copy()?;
                Ok(Op::Put(FolderPut::new(alloc, store.root, driver, *key, item)))
            }
            _ => Err(NoMemory),
        }
    }
}

impl Machine for Op {
    ghost use Rattle.op_machine.specs.Machine.{right, asks, asked, Fed, slots, hurt, left, allowed, goes_on, stays};

    ghost right = { right };

    ghost asks = { asks };

    ghost asked = { asked };

    ghost fed = { Fed };

    ghost slots = { slots };

    ghost hurt = { hurt };

    ghost left = { left };

    fn next(&mut self) -> Step {
        match self {
            Op::Get(lookup) => lookup.next(),
            Op::Put(put) => put.next(),
            Op::Refuse(given) => given.next(),
        }
    }

    fn feed(&mut self, reply: Reply) {
        match self {
            Op::Get(lookup) => lookup.feed(reply),
            Op::Put(put) => put.feed(reply),
            Op::Refuse(given) => given.feed(reply),
        }
    }

    ghost allowed = { allowed };

    ghost goes_on = { goes_on };

    ghost stays = { stays };
}
