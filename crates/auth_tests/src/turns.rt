use auth::{Authenticator, Numbered, SignFault};
use std::process::Abort;

// What every authenticator does with the requests of two turns.
pub(crate) fn two_turns(rt: &impl Abort, authenticator: &mut impl Authenticator) {
    authenticator.begin(255);
    two_values_and_no_third(rt, authenticator);
    the_last_node(rt, authenticator);
    authenticator.begin(0);
    // the lists are empty again
    two_values_and_no_third(rt, authenticator);
}

fn two_values_and_no_third(rt: &impl Abort, authenticator: &mut impl Authenticator) {
    assert!(rt; signs(authenticator, 1, 5));
    assert!(rt; signs(authenticator, 1, u64::MAX));
    assert_eq!(rt; authenticator.sign(1, 7), Err(SignFault::NotAllowed));
    // both again, and another node is not held up
    assert!(rt; signs(authenticator, 1, u64::MAX));
    assert!(rt; signs(authenticator, 1, 5));
    assert!(rt; signs(authenticator, 2, 7));
}

fn the_last_node(rt: &impl Abort, authenticator: &mut impl Authenticator) {
    assert!(rt; signs(authenticator, 15, 0));
    assert_eq!(rt; authenticator.sign(16, 0), Err(SignFault::NotAllowed));
    assert_eq!(rt; authenticator.sign(255, 0), Err(SignFault::NotAllowed));
    assert_eq!(rt; SignFault::NotAllowed.number(), 13);
}

// Whether the node signs the value, with a tag that is valid.
fn signs(authenticator: &mut impl Authenticator, node: u8, value: u64) -> bool {
    authenticator
        .sign(node, value)
        .is_ok_and(|tag| authenticator.verify(node, value, tag))
}
