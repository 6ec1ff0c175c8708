ghost use Rattle.std.specs.Prelude.{◌≡◌, IfOk};

use crate::bytes::Bytes;
use crate::driver::Driver;
use crate::key::Key;
use crate::memory::NoMemory;
use crate::meta::Meta;
use crate::store::Store;
use crate::text_list::TextList;
use std::alloc::Global;

/// Which read-only databases a lookup asks before its store.
#[derive(Debug)]
pub struct RoPlan {
    /// The names that the variable gives.
    pub names: TextList,
    /// Whether the list file names more.
    pub list: bool,
}

impl Drop for RoPlan {
    fn drop(self) {
        let RoPlan {
            names: _names,
            list: _,
        } = self;
    }
}

impl RoPlan {
    /// The same in memory of its own.
    pub fn copy(&self, alloc: Global) -> Result<RoPlan, NoMemory>
        ensures { IfOk result (λ p. p ≡ self.now) }
    {
        Ok(RoPlan {
            names: self.names.copy(alloc)?,
            list: self.list,
        })
    }
}

/// What a seat is asked to do, in one operation.
#[derive(Debug)]
pub enum Request {
    /// Look up a key for a driver.
    Get {
        store: Store,
        driver: Driver,
        key: Key,
        ro: RoPlan,
    },
    /// Put a blob under a key for a driver, in a store of at most so many bytes.
    Put {
        store: Store,
        driver: Driver,
        key: Key,
        meta: Meta,
        blob: Bytes,
        limit: u64,
    },
    /// Ask whether a key is marked.
    HasKey {
        root: u32,
        key: Key,
    },
    /// Mark a key.
    PutKey {
        root: u32,
        key: Key,
    },
    /// List the keys that the store holds for a driver.
    Keys {
        store: Store,
        driver: Driver,
    },
    /// Look at each entry of the store.
    Verify {
        store: Store,
    },
    /// Remove entries until the store has at most so many bytes.
    Trim {
        store: Store,
        to: u64,
    },
}

impl Drop for Request {
    fn drop(self) {
        match self {
            Request::Get {
                store: _,
                driver: _driver,
                key: _,
                ro: _ro,
            } => {}
            Request::Put {
                store: _,
                driver: _driver,
                key: _,
                meta: _meta,
                blob: _blob,
                limit: _,
            } => {}
            Request::HasKey { root: _, key: _ } => {}
            Request::PutKey { root: _, key: _ } => {}
            Request::Keys {
                store: _,
                driver: _driver,
            } => {}
            Request::Verify { store: _ } => {}
            Request::Trim { store: _, to: _ } => {}
        }
    }
}

impl Request {
    /// The same in memory of its own.
    pub fn copy(&self, alloc: Global) -> Result<Request, NoMemory>
        ensures { IfOk result (λ r. r ≡ self.now) }
    {
        match self {
            Request::Get {
                store,
                driver,
                key,
                ro,
            } => Ok(Request::Get {
                store: *store,
                driver: driver.copy()?,
                key: *key,
                ro: ro.copy(alloc)?,
            }),
            Request::Put {
                store,
                driver,
                key,
                meta,
                blob,
                limit,
            } => Ok(Request::Put {
                store: *store,
                driver: driver.copy()?,
                key: *key,
                meta: meta.copy()?,
                blob: blob.copy()?,
                limit: *limit,
            }),
            Request::HasKey { root, key } => Ok(Request::HasKey {
                root: *root,
                key: *key,
            }),
            Request::PutKey { root, key } => Ok(Request::PutKey {
                root: *root,
                key: *key,
            }),
            Request::Keys { store, driver } => Ok(Request::Keys {
                store: *store,
                driver: driver.copy()?,
            }),
            Request::Verify { store } => Ok(Request::Verify { store: *store }),
            Request::Trim { store, to } => Ok(Request::Trim {
                store: *store,
                to: *to,
            }),
        }
    }
}
