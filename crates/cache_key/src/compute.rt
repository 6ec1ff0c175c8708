ghost use Rattle.std.specs.Prelude.{◌≡◌, ◌++◌, IsOkAnd};
ghost use Rattle.sha1.specs.Sha1.{sha1};
ghost use Rattle.cache_types.specs.Driver.{blob_of};

use cache_types::{Driver, Key, NoMemory};
use sha1::Sha1;
use std::alloc::Global;

/// The key of some content for a driver: the SHA-1 of the driver keys blob followed by the content.
///
/// Both are hashed where they lie, so no memory is asked for, and it is never refused.
pub fn compute_key(_alloc: Global, driver: &Driver, content: &[u8]) -> Result<Key, NoMemory>
    ensures { IsOkAnd result (λ key. key.bytes ≡ sha1 (blob_of driver.now ++ content.now)) }
{
    let mut hasher = Sha1::new();
    hasher.update(driver.blob());
    hasher.update(content);
    Ok(Key {
        bytes: hasher.finalize(),
    })
}
