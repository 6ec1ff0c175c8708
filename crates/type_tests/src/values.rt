use cache_types::{
    Answer, Bytes, Driver, Key, KeyList, Layout, Meta, Name, NoMemory, Request, RoPlan, Row,
    RowList, Store, Text, TextList,
};
use std::alloc::Global;
use std::test::Fail;

const KEY: Key = Key { bytes: [7; 20] };

const STORE: Store = Store {
    root: 1,
    layout: Layout::Foz,
};

/// One name of each kind.
fn a_name(alloc: Global, kind: u32) -> Result<Name, NoMemory> {
    let root = 1;
    Ok(match kind {
        0 => Name::FolderLock { root, byte: 0xa9 },
        1 => Name::Entry { root, key: KEY },
        2 => Name::Temp { root, key: KEY },
        3 => Name::KeyIndex { root },
        4 => Name::Db { root },
        5 => Name::Idx { root },
        6 => Name::Foz { root },
        7 => Name::FozIdx { root },
        8 => a_read_only_name(alloc)?,
        9 => Name::RoIdx {
            root,
            name: Text::of(alloc, "ro")?,
        },
        _ => Name::List,
    })
}

fn a_read_only_name(alloc: Global) -> Result<Name, NoMemory> {
    let name = Text::of(alloc, "ro")?;
    Ok(Name::Ro { root: 1, name })
}

#[test]
fn names_are_copied(rt: HostRuntime) -> Result<(), NoMemory> {
    for kind in 0..11 {
        let name = a_name(rt.alloc(), kind)?;
        let copy = name.copy()?;
        assert!(rt; copy.is(&name));
    }
    Ok(())
}

#[test]
fn drivers_are_copied(rt: HostRuntime) -> Result<(), Fail> {
    let driver = Driver::new(rt.alloc(), "d", "g", 258)?;
    let copy = driver.copy()?;
    assert!(rt; copy.is(&driver));
    Ok(())
}

#[test]
fn hits_are_copied(rt: HostRuntime) -> Result<(), NoMemory> {
    let hit = Answer::Hit(Bytes::of(rt.alloc(), b"abc")?);
    let copy = hit.copy(rt.alloc())?;
    assert!(rt; matches!(&copy, Answer::Hit(blob) if blob.as_slice() == b"abc".as_slice()));
    Ok(())
}

#[test]
fn answers_with_keys_are_copied(rt: HostRuntime) -> Result<(), NoMemory> {
    let keys = Answer::Keys(KeyList::of(rt.alloc(), &[KEY, KEY])?);
    let copy = keys.copy(rt.alloc())?;
    assert!(rt; matches!(&copy, Answer::Keys(keys) if keys.as_slice() == [KEY, KEY].as_slice()));
    Ok(())
}

/// A head and a row of `verify`.
fn some_rows(alloc: Global) -> Result<RowList, NoMemory> {
    let mut rows = RowList::new(alloc);
    rows.push(Row::Head(Text::of(alloc, "folder")?))?;
    rows.push(Row::Entry {
        place: Some(3),
        key: Some(KEY),
        finding: Text::of(alloc, "ok")?,
    })?;
    Ok(rows)
}

#[test]
fn answers_with_rows_are_copied(rt: HostRuntime) -> Result<(), NoMemory> {
    let rows = Answer::Rows(some_rows(rt.alloc())?);
    let copy = rows.copy(rt.alloc())?;
    assert!(rt; matches!(&copy, Answer::Rows(rows) if rows.as_slice().len() == 2));
    Ok(())
}

fn a_get(alloc: Global) -> Result<Request, Fail> {
    let driver = Driver::new(alloc, "d", "g", 0)?;
    Ok(Request::Get {
        store: STORE,
        driver,
        key: KEY,
        ro: RoPlan {
            names: TextList::of(alloc, &[Text::of(alloc, "ro")?])?,
            list: true,
        },
    })
}

#[test]
fn a_get_is_copied(rt: HostRuntime) -> Result<(), Fail> {
    let get = a_get(rt.alloc())?;
    let copy = get.copy(rt.alloc())?;
    assert!(rt;
        matches!(&copy, Request::Get { ro, .. } if ro.list && ro.names.as_slice().len() == 1)
    );
    Ok(())
}

fn a_put(alloc: Global) -> Result<Request, Fail> {
    let driver = Driver::new(alloc, "d", "g", 0)?;
    Ok(Request::Put {
        store: STORE,
        driver,
        key: KEY,
        meta: Meta::Glsl(KeyList::of(alloc, &[KEY])?),
        blob: Bytes::of(alloc, b"abc")?,
        limit: 9,
    })
}

#[test]
fn a_put_is_copied(rt: HostRuntime) -> Result<(), Fail> {
    let put = a_put(rt.alloc())?;
    let copy = put.copy(rt.alloc())?;
    assert!(rt;
        matches!(&copy, Request::Put { blob, limit: 9, .. } if blob.as_slice() == b"abc".as_slice())
    );
    Ok(())
}
