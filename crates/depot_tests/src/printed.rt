use depot_turn::respond;
use std::process::Abort;
use std::test::Fail;

// One message of 25 bytes with one signature by node 0: who sends which value to whom, in which round. By hand, and not by the writer.
fn message(round: u8, sender: u8, receiver: u8, value: u8) -> [u8; 25] {
    let mut file = [0; 25];
    file[0] = 25;
    file[2] = 1;
    file[4] = round;
    file[5] = sender;
    file[6] = receiver;
    file[7] = 1;
    file[8] = value;
    file
}

// `which` says which case it is, where it fails.
fn prints(
    rt: &(impl Abort + AllocGlobal),
    which: &'static str,
    file: &[u8],
    expected: &str,
) -> Result<(), Fail> {
    let text = respond(rt.alloc(), file)?;
    assert!(rt; text.as_str() == expected, "{}", which);
    Ok(())
}

const SILENCE: &str = "box,state,outcome\n0,faulty,0\n1,honest,0\n2,honest,0\n3,honest,0\n";

#[test]
fn a_message_reaches_its_receiver(rt: HostRuntime) -> Result<(), Fail> {
    prints(
        &rt,
        "5 to node 1",
        &message(0, 0, 1, 5),
        "box,state,outcome\n0,faulty,0\n1,honest,5\n2,honest,0\n3,honest,0\n",
    )?;
    prints(
        &rt,
        "255 to node 3",
        &message(0, 0, 3, 255),
        "box,state,outcome\n0,faulty,0\n1,honest,0\n2,honest,0\n3,honest,255\n",
    )
}

#[test]
fn other_messages_do_nothing(rt: HostRuntime) -> Result<(), Fail> {
    prints(&rt, "an empty file", &[], SILENCE)?;
    prints(&rt, "a comment", &[4, 0, 2, 0], SILENCE)?;
    prints(&rt, "of round 1", &message(1, 0, 1, 5), SILENCE)?;
    prints(&rt, "from an honest node", &message(0, 2, 1, 5), SILENCE)?;
    prints(&rt, "to the faulty node", &message(0, 0, 0, 5), SILENCE)?;
    prints(&rt, "to no node", &message(0, 0, 4, 5), SILENCE)
}

#[test]
fn refusals_have_number_and_offset(rt: HostRuntime) -> Result<(), Fail> {
    prints(&rt, "a cut header", &[25, 0, 1], "refused 1 at 0\n")?;
    prints(&rt, "a cut record", &[4, 0, 2, 0, 9], "refused 1 at 4\n")?;
    prints(&rt, "an unknown kind", &[4, 0, 3, 0], "refused 2 at 0\n")?;
    prints(&rt, "no message", &[4, 0, 1, 0], "refused 3 at 0\n")?;
    prints(&rt, "too large", &[0; 32_769], "refused 4 at 32768\n")
}
