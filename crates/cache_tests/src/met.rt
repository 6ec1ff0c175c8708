use crate::premises::abc_is_found;
use crate::round_trip::abc_is_put_and_found;
use cache_main::RoundTrip;
use report_text::Status;
use std::test::Fail;

#[test]
fn the_premises_can_be_met(rt: HostRuntime) -> Result<(), Fail> {
    let (status, out) = abc_is_found(rt.alloc())?;
    assert_eq!(rt; status, Status::Ok);
    assert_eq!(rt; out.bytes(), b"abc".as_slice());
    Ok(())
}

#[test]
fn the_premises_of_a_round_trip_can_be_met(rt: HostRuntime) -> Result<(), Fail> {
    let (ended, out) = abc_is_put_and_found(rt.alloc())?;
    let well = RoundTrip {
        put: Status::Ok,
        get: Status::Ok,
    };
    assert_eq!(rt; ended, well);
    assert_eq!(rt; out.bytes(), b"stored\nabc".as_slice());
    Ok(())
}
