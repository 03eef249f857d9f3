use auth::Roster;
use broadcast::{Broadcast, DirectBroadcast, Turn};
use std::test::Fail;
use wire::Message;

fn sent(round: u8, sender: u8, receiver: u8, value: u64) -> Message {
    Message {
        round,
        sender,
        receiver,
        value,
        ..Message::default()
    }
}

#[test]
fn a_faulty_leader_parts_the_nodes(rt: HostRuntime) -> Result<(), Fail> {
    let roster = Roster::new(3, 1, &[0])?;
    let messages = [sent(0, 0, 1, 5), sent(0, 0, 2, 6), sent(0, 0, 2, 7)];
    let outcomes = DirectBroadcast.broadcast(
        &Turn {
            roster,
            number: 9,
            leader: 0,
            proposal: 8,
        },
        &messages,
    );
    assert_eq!(rt; outcomes, [0, 5, 6, 0, 0, 0, 0, 0, 0, 0, 0, 0, 0, 0, 0, 0]);
    Ok(())
}

#[test]
fn an_honest_leader_brings_its_proposal(rt: HostRuntime) -> Result<(), Fail> {
    let roster = Roster::new(16, 15, &[1, 15])?;
    let messages = [sent(0, 1, 2, 5), sent(0, 15, 3, 6)];
    let outcomes = DirectBroadcast.broadcast(
        &Turn {
            roster,
            number: 255,
            leader: 0,
            proposal: u64::MAX,
        },
        &messages,
    );
    let all = u64::MAX;
    assert_eq!(rt;
        outcomes,
        [
            all, 0, all, all, all, all, all, all, all, all, all, all, all, all, all, 0,
        ]
    );
    Ok(())
}

#[test]
fn no_leader_no_outcome(rt: HostRuntime) -> Result<(), Fail> {
    let roster = Roster::new(3, 1, &[0])?;
    let messages = [sent(0, 3, 1, 5), sent(0, 0, 1, 6)];
    let outcomes = DirectBroadcast.broadcast(
        &Turn {
            roster,
            number: 0,
            leader: 3,
            proposal: 8,
        },
        &messages,
    );
    assert_eq!(rt; outcomes, [0; 16]);
    Ok(())
}
