use crate::samples::{DISTINCT_BYTES, FILLER, distinct, reads, same};
use std::process::Abort;
use wire::{MAX_SIGNATURES, Message, Numbered, ShortBuffer, Signature, write_message};

// Each field at its greatest.
const GREATEST: Message = Message {
    round: u8::MAX,
    sender: u8::MAX,
    receiver: u8::MAX,
    count: 16,
    value: u64::MAX,
    signatures: [Signature {
        signer: u8::MAX,
        tag: u64::MAX,
    }; MAX_SIGNATURES],
};

fn writes(rt: &impl Abort, message: &Message, buffer: &mut [u8], length: usize) {
    assert_eq!(rt; write_message(message, buffer), Ok(length));
}

// The buffer holds sevens before, and is to hold them afterwards.
fn lacks(rt: &impl Abort, message: &Message, buffer: &mut [u8], needed: usize) {
    let short = ShortBuffer { needed };
    assert_eq!(rt; short.number(), 5);
    assert_eq!(rt; write_message(message, buffer), Err(short));
    for byte in buffer {
        assert_eq!(rt; *byte, 7);
    }
}

#[test]
fn each_byte_of_a_message(rt: HostRuntime) {
    let mut message = distinct();
    // what stands past the count says nothing
    message.signatures[1] = Signature { signer: 1, tag: 1 };
    let mut buffer = [7; 27];
    writes(&rt, &message, &mut buffer, 25);
    let bytes: &[u8] = DISTINCT_BYTES;
    // the range names its start, since the check finds no proof at ..25
    assert_eq!(rt; &buffer[0..25], bytes);
    // what stands past the message is kept
    let kept: &[u8] = &[7, 7];
    assert_eq!(rt; &buffer[25..], kept);
}

#[test]
fn a_buffer_as_long_as_the_message(rt: HostRuntime) {
    writes(&rt, &Message::default(), &mut [7; 16], 16);
    lacks(&rt, &Message::default(), &mut [7; 15], 16);
    lacks(&rt, &Message::default(), &mut [], 16);
    writes(&rt, &GREATEST, &mut [7; 160], 160);
    lacks(&rt, &GREATEST, &mut [7; 159], 160);
}

#[test]
fn a_count_above_sixteen_means_sixteen(rt: HostRuntime) {
    let mut expected = [u8::MAX; 161];
    expected[0] = 160;
    expected[1] = 0;
    expected[2] = 1;
    expected[3] = 0;
    expected[7] = 16;
    expected[160] = 7;
    for count in [16, 17, u8::MAX] {
        let message = Message { count, ..GREATEST };
        assert_eq!(rt; message.chain().len(), 16);
        let mut buffer = [7; 161];
        writes(&rt, &message, &mut buffer, 160);
        assert_eq!(rt; buffer, expected);
        lacks(&rt, &message, &mut [7; 159], 160);
    }
}

#[test]
fn what_is_written_is_read(rt: HostRuntime) {
    let mut message = GREATEST;
    for (i, signature) in message.signatures.iter_mut().enumerate() {
        signature.signer = u8::MAX - i as u8;
        signature.tag = u64::MAX - i as u64;
    }
    let mut file = [7; 160];
    writes(&rt, &message, &mut file, 160);
    let mut table = [FILLER; 1];
    reads(&rt, &file, &mut table, 1);
    same(&rt, &table[0], &message);
    let mut again = [7; 160];
    writes(&rt, &table[0], &mut again, 160);
    assert_eq!(rt; again, file);
}
