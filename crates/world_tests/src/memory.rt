use cache_types::{Bytes, Name, Text, Who};
use file_model::World;
use files_api::{Sink, Source, Took};
use memory_files::{MemFiles, MemSink, MemSource};
use std::test::Fail;

const ME: Who = Who {
    process: 1,
    seat: 0,
};

const NEXT: Who = Who {
    process: 2,
    seat: 0,
};

#[test]
fn what_was_brought_stays_after_a_stop(rt: HostRuntime) -> Result<(), Fail> {
    let mut world = World::new(rt.alloc());
    let main = Bytes::of(rt.alloc(), b"abc")?;
    let index = Bytes::new(rt.alloc());
    world.install(0, Text::of(rt.alloc(), "a")?, main, index)?;
    world.set_list(Some(Bytes::of(rt.alloc(), b"a")?))?;
    let files = MemFiles::on(rt.alloc(), ME, world)?;
    assert!(rt; files.may_follow(2, NEXT)?);
    let next = files.stopped_after(2, NEXT)?;
    let name = Text::of(rt.alloc(), "a")?;
    let main = next.world().file(&Name::Ro { root: 0, name })?;
    assert!(rt; matches!(&main, Some(bytes) if bytes.as_slice() == b"abc".as_slice()));
    let list = next.world().file(&Name::List)?;
    assert!(rt; matches!(&list, Some(bytes) if bytes.as_slice() == b"a".as_slice()));
    Ok(())
}

#[test]
fn streams_fail_where_they_are_told(rt: HostRuntime) -> Result<(), Fail> {
    let bytes = Bytes::of(rt.alloc(), b"abc")?;
    let mut source = MemSource::new(bytes, vec![in rt.alloc(); 1]?);
    let mut sink = MemSink::new(rt.alloc(), vec![in rt.alloc(); 2]?);
    let mut piece = [0; 2];
    assert_eq!(rt; source.read(&mut piece), Took::Some(2));
    assert_eq!(rt; sink.write(&piece), Took::Some(2));
    assert_eq!(rt; source.read(&mut piece), Took::Failed);
    assert_eq!(rt; source.read(&mut piece), Took::Some(1));
    assert_eq!(rt; sink.write(&piece[..1]), Took::Some(1));
    assert_eq!(rt; sink.write(&piece), Took::Failed);
    assert_eq!(rt; source.read(&mut piece), Took::Some(0));
    assert_eq!(rt; sink.bytes(), b"abc".as_slice());
    Ok(())
}
