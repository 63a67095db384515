//! Numbers from a `Vec`, and back.
use crate::Numbers;
use std::test::Fail;

#[test]
fn numbers_are_those_of_the_vec(rt: HostRuntime) -> Result<(), Fail> {
    let numbers = Numbers::from_vec(vec![in rt.alloc(); 3, -4]?);
    assert_eq!(rt; numbers.as_slice(), [3, -4].as_slice());
    assert_eq!(rt; numbers.into_vec().as_slice(), [3, -4].as_slice());
    Ok(())
}
