ghost use Rattle.std.specs.Prelude.{◌≡◌, OnOk, OnErr};
ghost use Rattle.std.specs.List.{list_any};
ghost use Rattle.seat_rules.specs.Address.{address};
ghost use Rattle.log_summary.specs.Summary.{evicting_after};
ghost use Rattle.rule_checks.specs.Tests as tests;

use crate::address::Address;
use cache_types::{NoMemory, Who};
use file_log::LogItem;
use std::marker::Model;

/// An Evict that is open, and whose it is.
#[derive(Debug, Drop)]
pub struct OpenEvict {
    pub who: Who,
    pub at: Address,
}

impl Model for OpenEvict {
    ghost use Rattle.log_summary.specs.Summary.{OpenEvict as TheEvict};

    ghost Value = { TheEvict };

    ghost view = { λ e. record { who = e.who; at = e.at } };
}

impl OpenEvict {
    /// Whether it is this seat's and of this address.
    fn evicts(&self, who: Who, at: &Address) -> bool
        ensures { result ≡ tests.evicts who at.now self.now }
    {
        self.who.is(who) && self.at.is(at)
    }
}

/// Whether an Evict of this seat and address is open.
pub fn is_evicting(evicting: &[OpenEvict], who: Who, at: &Address) -> bool
    ensures { result ≡ list_any (tests.evicts who at.now) evicting.now }
{
    let mut rest = evicting;
    while let [first, tail @ ..] = rest {
        if first.evicts(who, at) {
            return true;
        }
        rest = tail;
    }
    false
}

/// Goes on over an item: an Evict is open up to its seat's next End. A refusal changes nothing.
pub fn follow_evict(evicting: &mut Vec<OpenEvict>, item: &LogItem) -> Result<(), NoMemory>
    ensures ok { OnOk result (evicting.new.items ≡ evicting_after evicting.old.items item.now) }
    ensures err { OnErr result (evicting.new.items ≡ evicting.old.items) }
{
    match item {
        LogItem::Evict {
            who,
            store,
            driver,
            key,
        } => {
            let at = Address::of(*store, driver, *key)?;
            evicting.insert(0, OpenEvict { who: *who, at })?;
        }
        LogItem::End { who, answer: _ } => evicting.retain(|evict| !evict.who.is(*who)),
        _ => {}
    }
    Ok(())
}
