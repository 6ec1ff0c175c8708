//! What an operation's store gave after its items.

ghost use Rattle.std.specs.Prelude.{◌≡◌, ◌||◌, ◌∷◌, Bool, List, ℕ, Option, Some, OnOk, OnErr, is_some, is_none};
ghost use Rattle.std.specs.List.{list_any};
ghost use Rattle.operation_ledger.specs.Given.{Learns, with_lately};
ghost use Rattle.rule_checks.specs.Tests.{same_blob as the_same};

use cache_types::{Bytes, NoMemory};

/// What a store gives an operation at a place.
#[derive(Debug, Drop)]
pub enum Lately {
    /// What it gave before.
    AsBefore,
    /// This blob, or none.
    Gives(Option<Bytes>),
}

/// Whether these are one blob, or none both times.
fn same_blob(a: &Option<Bytes>, b: &Option<Bytes>) -> bool
    ensures { result ≡ the_same a.now b.now }
{
    match (a, b) {
        (None, None) => true,
        (Some(a), Some(b)) => a == b,
        _ => false,
    }
}

/// Whether this is the blob.
fn is_blob(given: &Option<Bytes>, blob: &Bytes) -> bool
    ensures { result ≡ the_same (Some blob.now) given.now }
{
    match given {
        None => false,
        Some(given) => blob == given,
    }
}

/// Whether it was given, a blob or none.
fn was_given(gave: &[Option<Bytes>], given: &Option<Bytes>) -> bool
    ensures { result ≡ list_any (the_same given.now) gave.now }
{
    let mut rest = gave;
    while let [first, tail @ ..] = rest {
        if same_blob(given, first) {
            return true;
        }
        rest = tail;
    }
    false
}

/// Whether the blob was given.
fn gave_blob(gave: &[Option<Bytes>], blob: &Bytes) -> bool
    ensures { result ≡ list_any (the_same (Some blob.now)) gave.now }
{
    let mut rest = gave;
    while let [first, tail @ ..] = rest {
        if is_blob(first, blob) {
            return true;
        }
        rest = tail;
    }
    false
}

/// Whether some blob was given.
fn gave_some(gave: &[Option<Bytes>]) -> bool
    ensures { result ≡ list_any is_some gave.now }
{
    let mut rest = gave;
    while let [first, tail @ ..] = rest {
        if first.is_some() {
            return true;
        }
        rest = tail;
    }
    false
}

/// Whether no blob was given, some time.
fn gave_none(gave: &[Option<Bytes>]) -> bool
    ensures { result ≡ list_any is_none gave.now }
{
    let mut rest = gave;
    while let [first, tail @ ..] = rest {
        if first.is_none() {
            return true;
        }
        rest = tail;
    }
    false
}

impl Lately {
    /// Whether the blob is given now or was before.
    pub fn has_blob(&self, gave: &[Option<Bytes>], blob: &Bytes) -> bool
        ensures { result ≡ list_any (the_same (Some blob.now)) (with_lately self.now gave.now) }
    {
        match self {
            Lately::AsBefore => gave_blob(gave, blob),
            Lately::Gives(given) => is_blob(given, blob) || gave_blob(gave, blob),
        }
    }

    /// Whether some blob is given now or was before.
    pub fn has_some(&self, gave: &[Option<Bytes>]) -> bool
        ensures { result ≡ list_any is_some (with_lately self.now gave.now) }
    {
        match self {
            Lately::AsBefore => gave_some(gave),
            Lately::Gives(given) => given.is_some() || gave_some(gave),
        }
    }

    /// Whether no blob is given now or was before.
    pub fn has_none(&self, gave: &[Option<Bytes>]) -> bool
        ensures { result ≡ list_any is_none (with_lately self.now gave.now) }
    {
        match self {
            Lately::AsBefore => gave_none(gave),
            Lately::Gives(given) => given.is_none() || gave_none(gave),
        }
    }
}

/// Adds what was given, unless it was given before. A refusal adds nothing.
pub fn learn(gave: &mut Vec<Option<Bytes>>, given: Option<Bytes>) -> Result<(), NoMemory>
    ensures ok { OnOk result (Learns gave.old.items given gave.new.items) }
    ensures err { OnErr result (gave.new.items ≡ gave.old.items) }
{
    if was_given(gave, &given) {
        return Ok(());
    }
    gave.push(given)?;
    Ok(())
}
