use crate::bytes::blob_of;
use crate::driver::{driver_of, push_driver};
use crate::lists::{meta_of, plan_of, push_meta, push_plan};
use crate::store::{push_store, store_of};
use crate::words::Words;
use cache_types::{Bytes, Driver, Key, Meta, Request, RoPlan, Store};
use row_text::{Sentence, Wrong, key_of, root_of};
use std::alloc::Global;

/// The limit of a put where a row says none.
const USUAL_LIMIT: u64 = 1_000;

/// Takes a request: `get KEY`, `put KEY BYTES [limit N]`, `has KEY`, `mark KEY`, `keys`, `verify` or `trim N`, each
/// with `[root N] [layout WORD] [id WORD]` as it has them.
pub fn request_of(row: &mut Sentence) -> Result<Request, Wrong> {
    let word = row.text()?;
    match word.as_str() {
        "get" => get(row),
        "put" => put(row),
        "has" => has(row),
        "mark" => mark(row),
        "keys" => keys(row),
        "verify" => verify(row),
        "trim" => trim(row),
        _ => Err(Wrong::Found(format!(in row.alloc(); "no request is '{word}'")?)),
    }
}

fn get(row: &mut Sentence) -> Result<Request, Wrong> {
    let key = key_of(row)?;
    let store = store_of(row)?;
    let driver = driver_of(row)?;
    let ro = plan_of(row)?;
    Ok(Request::Get {
        store,
        driver,
        key,
        ro,
    })
}

fn put(row: &mut Sentence) -> Result<Request, Wrong> {
    let key = key_of(row)?;
    let blob = blob_of(row)?;
    let limit = limit_of(row)?;
    let store = store_of(row)?;
    let driver = driver_of(row)?;
    let meta = meta_of(row)?;
    Ok(Request::Put {
        store,
        driver,
        key,
        meta,
        blob,
        limit,
    })
}

fn limit_of(row: &mut Sentence) -> Result<u64, Wrong> {
    if row.takes("limit") {
        return row.number();
    }
    Ok(USUAL_LIMIT)
}

fn has(row: &mut Sentence) -> Result<Request, Wrong> {
    let key = key_of(row)?;
    let root = root_of(row)?;
    Ok(Request::HasKey { root, key })
}

fn mark(row: &mut Sentence) -> Result<Request, Wrong> {
    let key = key_of(row)?;
    let root = root_of(row)?;
    Ok(Request::PutKey { root, key })
}

fn keys(row: &mut Sentence) -> Result<Request, Wrong> {
    let store = store_of(row)?;
    let driver = driver_of(row)?;
    Ok(Request::Keys { store, driver })
}

fn verify(row: &mut Sentence) -> Result<Request, Wrong> {
    let store = store_of(row)?;
    Ok(Request::Verify { store })
}

fn trim(row: &mut Sentence) -> Result<Request, Wrong> {
    let to = row.number()?;
    let store = store_of(row)?;
    Ok(Request::Trim { store, to })
}

/// A request in the words of a row.
pub fn request_text(alloc: Global, request: &Request) -> Result<String, Wrong> {
    let mut words = Words::new(alloc);
    push_request(&mut words, request)?;
    Ok(words.into_text())
}

pub(crate) fn push_request(words: &mut Words, request: &Request) -> Result<(), Wrong> {
    match request {
        Request::Get {
            store,
            driver,
            key,
            ro,
        } => push_get(words, *store, driver, key, ro),
        Request::Put {
            store,
            driver,
            key,
            meta,
            blob,
            limit,
        } => {
            push_blob(words, key, blob, *limit)?;
            push_driver_and_meta(words, *store, driver, meta)
        }
        Request::HasKey { root, key } => push_marked(words, "has", *root, key),
        Request::PutKey { root, key } => push_marked(words, "mark", *root, key),
        Request::Keys { store, driver } => push_listing(words, *store, driver),
        Request::Verify { store } => push_verify(words, *store),
        Request::Trim { store, to } => push_trim(words, *store, *to),
    }
}

fn push_get(
    words: &mut Words,
    store: Store,
    driver: &Driver,
    key: &Key,
    ro: &RoPlan,
) -> Result<(), Wrong> {
    words.word("get")?;
    words.key(key)?;
    push_store(words, store)?;
    push_driver(words, driver)?;
    push_plan(words, ro)
}

/// The first words of a put.
fn push_blob(words: &mut Words, key: &Key, blob: &Bytes, limit: u64) -> Result<(), Wrong> {
    words.word("put")?;
    words.key(key)?;
    words.bytes(blob.as_slice())?;
    if limit == USUAL_LIMIT {
        return Ok(());
    }
    words.named("limit", limit)
}

/// The last words of a put.
fn push_driver_and_meta(
    words: &mut Words,
    store: Store,
    driver: &Driver,
    meta: &Meta,
) -> Result<(), Wrong> {
    push_store(words, store)?;
    push_driver(words, driver)?;
    push_meta(words, meta)
}

fn push_marked(words: &mut Words, word: &str, root: u32, key: &Key) -> Result<(), Wrong> {
    words.word(word)?;
    words.key(key)?;
    words.root(root)
}

fn push_listing(words: &mut Words, store: Store, driver: &Driver) -> Result<(), Wrong> {
    words.word("keys")?;
    push_store(words, store)?;
    push_driver(words, driver)
}

fn push_verify(words: &mut Words, store: Store) -> Result<(), Wrong> {
    words.word("verify")?;
    push_store(words, store)
}

fn push_trim(words: &mut Words, store: Store, to: u64) -> Result<(), Wrong> {
    words.named("trim", to)?;
    push_store(words, store)
}
