ghost use Rattle.std.specs.Prelude.{◌≡◌, ◌≢◌, false, [], List, IfOk, OnOk, OnErr};
ghost use Rattle.std.specs.List.{list_any};
ghost use Rattle.log_summary.specs.Summary.{BegunPut as ThePut, put_in, put_by};
ghost use Rattle.rule_checks.specs.Tests as tests;
ghost use Rattle.world_log.specs.Grouping.{any_put, AreGrouped, Gains};

use crate::address::Address;
use crate::groups::{PutGroups, PutPlace};
use crate::puts_at::PutsAt;
use cache_types::{Key, NoMemory, Request};
use file_log::LogItem;
use item_frame::{ItemRefusal, read_blob};
use std::alloc::Global;

/// That refused bytes are no item, unless memory ran out.
fn is_no_item(refusal: ItemRefusal) -> Result<bool, NoMemory>
    ensures none { IfOk result (λ is. is ≡ false) }
    ensures memory { OnOk result (refusal ≢ ItemRefusal.NoMemory) }
{
    match refusal {
        ItemRefusal::NoMemory => Err(NoMemory),
        _ => Ok(false),
    }
}

impl PutsAt {
    /// Whether bytes are an item of one of them, in this root's folder store under the key. Reads the bytes
    /// once.
    fn has_item(&self, alloc: Global, root: u32, key: Key, bytes: &[u8]) -> Result<bool, NoMemory>
        ensures { IfOk result (λ is. is ≡ any_put (tests.is_item_of root key bytes.now) self.now) }
    {
        if !self.at.is_in(root, key) {
            return Ok(false);
        }
        match read_blob(alloc, &self.at.driver, bytes) {
            Ok(blob) => Ok(self.has(&blob)),
            Err(refusal) => is_no_item(refusal),
        }
    }
}

/// Whether bytes are an item of one of these puts, in this root's folder store under the key.
fn is_item_of_any(
    alloc: Global,
    records: &[PutsAt],
    root: u32,
    key: Key,
    bytes: &[u8],
) -> Result<bool, NoMemory>
    ensures { IfOk result (λ is. is ≡ list_any (any_put (tests.is_item_of root key bytes.now)) records.now) }
{
    let mut rest = records;
    while let [first, tail @ ..] = rest {
        if first.has_item(alloc, root, key, bytes)? {
            return Ok(true);
        }
        rest = tail;
    }
    Ok(false)
}

/// Whether bytes are an item of a put that began, in this root's folder store under the key. Reads them
/// once for each address that has puts there.
#[tactic(auto, using(crate::proofs::Grouping::any_item))]
pub fn is_put_item(
    alloc: Global,
    groups: &PutGroups,
    root: u32,
    key: Key,
    bytes: &[u8],
) -> Result<bool, NoMemory>
    ensures { IfOk result (λ is. (puts : List ThePut) → AreGrouped groups.now puts → is ≡ list_any (tests.is_item_of root key bytes.now) puts) }
{
    is_item_of_any(
        alloc,
        groups.under(&PutPlace { root, key }),
        root,
        key,
        bytes,
    )
}

/// Adds the put that a request asks for, if it is one. A refusal adds none.
fn begin(alloc: Global, groups: &mut PutGroups, request: &Request) -> Result<(), NoMemory>
    ensures ok { OnOk result (Gains groups.old groups.new (put_by request.now)) }
    ensures err { OnErr result (Gains groups.old groups.new []) }
{
    if let Request::Put {
        store,
        driver,
        key,
        meta: _,
        blob,
        limit: _,
    } = request
    {
        let at = Address::of(*store, driver, *key)?;
        let blob = blob.copy()?;
        return groups.add(alloc, at, blob);
    }
    Ok(())
}

/// Goes on over an item: a put begins with its Begin. A refusal adds none.
pub fn follow_put(alloc: Global, groups: &mut PutGroups, item: &LogItem) -> Result<(), NoMemory>
    ensures ok { OnOk result (Gains groups.old groups.new (put_in item.now)) }
    ensures err { OnErr result (Gains groups.old groups.new []) }
{
    match item {
        LogItem::Begin { who: _, request } => begin(alloc, groups, request),
        _ => Ok(()),
    }
}
