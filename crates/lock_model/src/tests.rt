use super::*;
use std::test::Fail;

#[test]
fn a_file_has_one_holder(rt: HostRuntime) -> Result<(), Fail> {
    let mut locks = Locks::new(rt.alloc());
    assert!(rt; locks.take(1, 7)?);
    assert!(rt; locks.take(1, 7)?);
    assert!(rt; locks.take(1, 8)?);
    assert!(rt; !locks.take(2, 7)?);
    locks.free(7);
    assert!(rt; locks.take(2, 7)?);
    locks.free_all(1);
    assert_eq!(rt; locks.holder_of(7), Some(2));
    assert_eq!(rt; locks.holder_of(8), None);
    Ok(())
}
