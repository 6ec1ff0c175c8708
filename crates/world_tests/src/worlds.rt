use cache_types::{Name, Who};
use file_log::{Call, Reply};
use file_model::{Fate, Progress, World};
use std::test::Fail;

const ME: Who = Who {
    process: 1,
    seat: 0,
};

/// The clock's number is told, a process is stopped, and the log has both.
#[test]
fn a_world_tells_what_was_done(rt: HostRuntime) -> Result<(), Fail> {
    let mut world = World::new(rt.alloc());
    world.set_clock(7);
    let progress = world.step(ME, &Call::Now, 0, Fate::Go);
    assert!(rt; matches!(progress, Progress::Reply(Reply::Number(7))));
    world.stop(2)?;
    assert_eq!(rt; world.log_len(), 2);
    assert_eq!(rt; world.log()?.len(), 2);
    assert!(rt; world.is_halted(2));
    assert!(rt; world.file(&Name::List)?.is_none());
    Ok(())
}
