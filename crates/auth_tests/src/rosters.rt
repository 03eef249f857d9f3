use auth::{Numbered, Roster, RosterFault};
use std::test::Fail;

#[test]
fn nodes_are_one_to_sixteen(rt: HostRuntime) {
    assert!(rt; Roster::new(0, 0, &[]).is_err());
    assert!(rt; Roster::new(1, 0, &[]).is_ok());
    assert!(rt; Roster::new(16, 15, &[15]).is_ok());
    assert!(rt; Roster::new(17, 0, &[]).is_err());
}

#[test]
fn bound_is_below_the_nodes(rt: HostRuntime) {
    assert!(rt; Roster::new(4, 3, &[]).is_ok());
    assert!(rt; Roster::new(4, 4, &[]).is_err());
}

#[test]
fn faulty_nodes_are_among_the_nodes(rt: HostRuntime) {
    assert!(rt; Roster::new(4, 1, &[3, 0, 3]).is_ok());
    assert!(rt; Roster::new(4, 1, &[3, 4]).is_err());
    assert_eq!(rt; RosterFault::OutOfBounds.number(), 6);
}

#[test]
fn a_node_is_honest_or_faulty(rt: HostRuntime) -> Result<(), Fail> {
    let roster = Roster::new(4, 1, &[3, 0, 3])?;
    assert!(rt; roster.is_faulty(0) && roster.is_honest(1) && roster.is_faulty(3));
    assert!(rt; !roster.is_faulty(4) && !roster.is_honest(4));
    Ok(())
}
