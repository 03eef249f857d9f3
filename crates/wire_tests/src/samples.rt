use std::process::Abort;
use wire::{Layer, MAX_SIGNATURES, Message, Refusal, Signature, read_messages};

// What a table holds before it is read into.
pub(crate) const FILLER: Message = Message {
    round: 201,
    sender: 202,
    receiver: 203,
    count: 204,
    value: 205,
    signatures: [Signature {
        signer: 206,
        tag: 207,
    }; MAX_SIGNATURES],
};

// A message of which each field differs from the others, with one signature.
pub(crate) fn distinct() -> Message {
    let mut message = Message {
        round: 21,
        sender: 22,
        receiver: 23,
        count: 1,
        value: 0x0807_0605_0403_0201,
        ..Message::default()
    };
    message.signatures[0] = Signature {
        signer: 9,
        tag: 0x1211_100f_0e0d_0c0b,
    };
    message
}

pub(crate) const DISTINCT_BYTES: &[u8; 25] =
    b"\x19\0\x01\0\x15\x16\x17\x01\x01\x02\x03\x04\x05\x06\x07\x08\x09\x0b\x0c\x0d\x0e\x0f\x10\x11\x12";

pub(crate) fn same(rt: &impl Abort, left: &Message, right: &Message) {
    assert_eq!(rt;
        (
            left.round,
            left.sender,
            left.receiver,
            left.count,
            left.value
        ),
        (
            right.round,
            right.sender,
            right.receiver,
            right.count,
            right.value
        )
    );
    assert_eq!(rt; left.signatures, right.signatures);
}

pub(crate) fn unchanged(rt: &impl Abort, table: &[Message]) {
    for message in table {
        same(rt, message, &FILLER);
    }
}

pub(crate) fn reads(rt: &impl Abort, file: &[u8], table: &mut [Message], count: usize) {
    assert_eq!(rt; read_messages(file, table), Ok(count));
}

// The table is to be as it was. A `Refusal` built at each call would be longer than its three parts.
pub(crate) fn refuses(
    rt: &impl Abort,
    file: &[u8],
    table: &mut [Message],
    number: u8,
    offset: usize,
    layer: Layer,
) {
    assert_eq!(rt;
        read_messages(file, table).map_err(Refusal::from),
        Err(Refusal {
            number,
            offset,
            layer,
        })
    );
    unchanged(rt, table);
}

// Makes a row of messages with no signatures of a file of zeros; their rounds count them. By hand, since the writer is tested too.
pub(crate) fn put_messages(file: &mut [u8]) {
    for (i, record) in file.chunks_exact_mut(16).enumerate() {
        record[0] = 16;
        record[2] = 1;
        record[4] = (i % 256) as u8;
    }
}
