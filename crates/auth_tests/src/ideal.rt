use crate::turns::two_turns;
use auth::{Authenticator, IdealAuthenticator, Roster, SignFault};
use std::test::Fail;

// Four nodes, of which node 3 is faulty.
fn ideal() -> Result<IdealAuthenticator, Fail> {
    let roster = Roster::new(4, 1, &[3])?;
    Ok(IdealAuthenticator::new(&roster))
}

#[test]
fn signs_two_values_a_turn(rt: HostRuntime) -> Result<(), Fail> {
    two_turns(&rt, &mut ideal()?);
    Ok(())
}

#[test]
fn nobody_has_signed_at_first(rt: HostRuntime) -> Result<(), Fail> {
    let authenticator = ideal()?;
    for node in 0..3 {
        assert!(rt; !authenticator.verify(node, 0, 0));
    }
    Ok(())
}

#[test]
fn the_tag_is_0(rt: HostRuntime) -> Result<(), Fail> {
    let mut authenticator = ideal()?;
    assert_eq!(rt; authenticator.sign(1, 5), Ok(0));
    assert!(rt; authenticator.verify(1, 5, 0));
    assert!(rt; !authenticator.verify(1, 5, 1));
    assert!(rt; !authenticator.verify(1, 6, 0));
    assert!(rt; !authenticator.verify(2, 5, 0));
    Ok(())
}

#[test]
fn a_faulty_node_has_signed_all(rt: HostRuntime) -> Result<(), Fail> {
    let authenticator = ideal()?;
    assert!(rt; authenticator.verify(3, 5, 0));
    assert!(rt; authenticator.verify(3, u64::MAX, 0));
    assert!(rt; !authenticator.verify(3, 5, 1));
    Ok(())
}

#[test]
fn a_place_without_a_node_signs_and_is_not_believed_before(rt: HostRuntime) -> Result<(), Fail> {
    let mut authenticator = ideal()?;
    assert!(rt; !authenticator.verify(15, 5, 0));
    assert_eq!(rt; authenticator.sign(15, 5), Ok(0));
    assert!(rt; authenticator.verify(15, 5, 0));
    assert!(rt; !authenticator.verify(16, 5, 0));
    Ok(())
}

#[test]
fn a_refused_value_is_not_signed(rt: HostRuntime) -> Result<(), Fail> {
    let mut authenticator = ideal()?;
    assert_eq!(rt; authenticator.sign(1, 5), Ok(0));
    assert_eq!(rt; authenticator.sign(1, 6), Ok(0));
    assert_eq!(rt; authenticator.sign(1, 7), Err(SignFault::NotAllowed));
    assert!(rt; !authenticator.verify(1, 7, 0));
    Ok(())
}

#[test]
fn a_beginning_ends_what_was_valid(rt: HostRuntime) -> Result<(), Fail> {
    let mut authenticator = ideal()?;
    assert_eq!(rt; authenticator.sign(1, 5), Ok(0));
    // also the beginning of the same turn
    authenticator.begin(0);
    assert!(rt; !authenticator.verify(1, 5, 0));
    Ok(())
}
