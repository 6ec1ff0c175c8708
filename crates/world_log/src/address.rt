use crate::same::{same_driver, same_key, same_store};
use cache_types::{Driver, Key, Layout, NoMemory, Store};
use std::marker::Model;

/// What a blob is put under.
#[derive(Debug, Drop)]
pub struct Address {
    pub store: Store,
    pub driver: Driver,
    pub key: Key,
}

impl Model for Address {
    ghost use Rattle.seat_rules.specs.Address.{Address as TheAddress};

    ghost Value = { TheAddress };

    ghost view = { λ a. record { store = a.store; driver = a.driver; key = a.key } };
}

impl Address {
    ghost use Rattle.std.specs.Prelude.{◌≡◌, ◌&&◌, IfOk};
    ghost use Rattle.seat_rules.specs.Address.{address};
    ghost use Rattle.folder_rules.specs.Whole.{folder_of};
    ghost use Rattle.rule_checks.specs.Tests as tests;

    /// The address of these parts, with a driver in memory of its own.
    pub fn of(store: Store, driver: &Driver, key: Key) -> Result<Address, NoMemory>
        ensures { IfOk result (λ a. a ≡ address store driver.now key) }
    {
        let driver = driver.copy()?;
        Ok(Address { store, driver, key })
    }

    /// Whether two addresses are one.
    pub fn is(&self, other: &Address) -> bool
        ensures { result ≡ tests.same_address self.now other.now }
    {
        same_store(self.store, other.store)
            && same_driver(&self.driver, &other.driver)
            && same_key(self.key, other.key)
    }
    /// Whether it is in this root's folder store under the key.
    pub fn is_in(&self, root: u32, key: Key) -> bool
        ensures { result ≡ (tests.same_store self.now.store (folder_of root) && tests.same_key self.now.key key) }
    {
        let folder = Store {
            root,
            layout: Layout::Folder,
        };
        same_store(self.store, folder) && same_key(self.key, key)
    }
}
