ghost use Rattle.std.specs.Prelude.{◌≡◌};
ghost use Rattle.item_frame.specs.Item.{Reads};
ghost use Rattle.folder_store.specs.Finds.{Finds};
ghost use Rattle.folder_store.specs.Gets.{IsNew};

use cache_types::{Answer, Bytes, Driver, Key, MAX_ITEM, Name};
use item_frame::take_blob;
use machine_parts::{Judge, Judged, OldFile, Open, Reading, Whole};

/// A lookup in a folder store: at most four calls, all in one root. It takes no lock and changes nothing.
///
/// It ends in `Hit` with the blob that the entry's file holds for the driver; in `Miss` where there is no
/// such file, it is longer than the longest item, or it holds no item of the driver; in `FilesFault` where a
/// call failed; in `NoMemory`.
pub type FolderGet = Whole<Judged<Reading<EntryFile>, ForDriver>>;

/// The file of a key's entry.
#[derive(Debug, Drop)]
pub struct EntryFile {
    root: u32,
    key: Key,
}

impl OldFile for EntryFile {
    ghost use Rattle.cache_types.specs.declared.limits.TheConstants.{MAX_ITEM};
    ghost use Rattle.folder_store.specs.Gets.{entry_name, one_is_small};

    const SLOT: u8 = 1;

    ghost SLOT = { 1 };

    const LONGEST: u64 = MAX_ITEM;

    ghost LONGEST = { MAX_ITEM };

    ghost name = { entry_name };

    fn name(&self) -> Name {
        Name::Entry {
            root: self.root,
            key: self.key,
        }
    }

    ghost small = { one_is_small };
}

/// Judges an entry's file for a driver.
#[derive(Debug, Drop)]
pub struct ForDriver {
    driver: Driver,
}

/// The answer that a whole file gives: a blob stays in the memory of what was read.
fn answer_of(driver: &Driver, bytes: Bytes) -> Answer
    ensures { Finds (Reads driver.now bytes) result }
{
    match take_blob(driver, bytes) {
        Ok(blob) => Answer::Hit(blob),
        Err(_) => Answer::Miss,
    }
}

impl Judge<Reading<EntryFile>> for ForDriver {
    ghost use Rattle.folder_store.specs.Gets.{JudgesFor};

    type Verdict = Answer;

    ghost judges = { JudgesFor };

    fn judge(self, given: Option<Bytes>) -> Answer {
        match given {
            Some(bytes) => answer_of(&self.driver, bytes),
            None => Answer::Miss,
        }
    }
}

/// A lookup of a key for a driver in the store of this root, which has done nothing yet. Takes no memory.
pub fn new_lookup(root: u32, driver: Driver, key: Key) -> FolderGet
    ensures { IsNew root driver key result }
{
    let entry = Reading::new(EntryFile { root, key }, Open::none());
    Whole::Going(Judged::new(entry, ForDriver { driver }))
}
