//! When two parts of an address are one.

ghost use Rattle.std.specs.Prelude.{◌≡◌};
ghost use Rattle.rule_checks.specs.Tests as tests;

use cache_types::{Driver, Key, Layout, Store};

/// Whether two layouts are one.
fn same_layout(a: Layout, b: Layout) -> bool
    ensures { result ≡ tests.same_layout a b }
{
    match (a, b) {
        (Layout::Folder, Layout::Folder) => true,
        (Layout::Database, Layout::Database) => true,
        (Layout::Foz, Layout::Foz) => true,
        _ => false,
    }
}

/// Whether two stores are one.
pub fn same_store(a: Store, b: Store) -> bool
    ensures { result ≡ tests.same_store a b }
{
    a.root == b.root && same_layout(a.layout, b.layout)
}

/// Whether two drivers are one.
pub fn same_driver(a: &Driver, b: &Driver) -> bool
    ensures { result ≡ tests.same_driver a.now b.now }
{
    a.is(b)
}

/// Whether two keys are one.
pub fn same_key(a: Key, b: Key) -> bool
    ensures { result ≡ tests.same_key a b }
{
    a.bytes == b.bytes
}
