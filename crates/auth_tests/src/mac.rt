use crate::keys::{KEY, keys};
use crate::turns::two_turns;
use auth::{Authenticator, MacAuthenticator};
use siphash::siphash;
use std::test::Fail;

#[test]
fn signs_two_values_a_turn(rt: HostRuntime) {
    two_turns(&rt, &mut MacAuthenticator::new(&keys()));
}

// Turn 0 and this value are the bytes 0 to 8, of which the tag was published.
#[test]
fn the_published_tag_of_nine_bytes(rt: HostRuntime) {
    let mut authenticator = MacAuthenticator::new(&keys());
    assert_eq!(rt;
        authenticator.sign(1, 0x0807_0605_0403_0201),
        Ok(0x9e00_82df_0ba9_e4b0)
    );
}

#[test]
fn the_tag_covers_the_turn_and_the_value(rt: HostRuntime) {
    let mut authenticator = MacAuthenticator::new(&keys());
    authenticator.begin(200);
    let tag = siphash(&KEY, &[200, 5, 0, 0, 0, 0, 0, 0, 1]);
    assert_eq!(rt; authenticator.sign(1, 0x0100_0000_0000_0005), Ok(tag));
    assert!(rt; authenticator.verify(1, 0x0100_0000_0000_0005, tag));
}

#[test]
fn a_forged_tag_is_refused(rt: HostRuntime) -> Result<(), Fail> {
    let mut authenticator = MacAuthenticator::new(&keys());
    let tag = authenticator.sign(1, 5)?;
    for bit in 0..64u32 {
        assert!(rt; !authenticator.verify(1, 5, tag ^ (1 << bit)));
    }
    // the tag of another value, and under another node's key
    assert!(rt; !authenticator.verify(1, 6, tag));
    assert!(rt; !authenticator.verify(2, 5, tag));
    Ok(())
}

#[test]
fn a_tag_of_another_turn_is_refused(rt: HostRuntime) -> Result<(), Fail> {
    let mut authenticator = MacAuthenticator::new(&keys());
    authenticator.begin(7);
    let tag = authenticator.sign(1, 5)?;
    authenticator.begin(8);
    assert!(rt; !authenticator.verify(1, 5, tag));
    // the keys decide, not the lists: in its own turn the tag is valid wherever the keys are
    authenticator.begin(7);
    assert!(rt; authenticator.verify(1, 5, tag));
    Ok(())
}

#[test]
fn no_tag_is_valid_above_15(rt: HostRuntime) {
    let authenticator = MacAuthenticator::new(&keys());
    let signed = [0, 5, 0, 0, 0, 0, 0, 0, 0];
    assert!(rt; authenticator.verify(15, 5, siphash(&keys()[15], &signed)));
    for key in keys() {
        assert!(rt; !authenticator.verify(16, 5, siphash(&key, &signed)));
        assert!(rt; !authenticator.verify(255, 5, siphash(&key, &signed)));
    }
}
