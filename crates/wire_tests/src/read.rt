use crate::samples::{DISTINCT_BYTES, FILLER, distinct, reads, same, unchanged};
use wire::{Message, Signature};

#[test]
fn an_empty_file(rt: HostRuntime) {
    let mut table = [FILLER; 1];
    reads(&rt, &[], &mut table, 0);
    unchanged(&rt, &table);
    reads(&rt, &[], &mut [], 0);
}

#[test]
fn one_message(rt: HostRuntime) {
    let file = b"\x19\0\x01\0\0\0\x01\x01\x05\0\0\0\0\0\0\0\0\0\0\0\0\0\0\0\0";
    let mut table = [FILLER; 2];
    reads(&rt, file, &mut table, 1);
    same(
        &rt,
        &table[0],
        &Message {
            receiver: 1,
            count: 1,
            value: 5,
            ..Message::default()
        },
    );
    same(&rt, &table[1], &FILLER);
    let chain: &[Signature] = &[Signature { signer: 0, tag: 0 }];
    assert_eq!(rt; table[0].chain(), chain);
}

#[test]
fn the_lowest_byte_of_a_number_comes_first(rt: HostRuntime) {
    let mut table = [FILLER; 1];
    reads(&rt, DISTINCT_BYTES, &mut table, 1);
    same(&rt, &table[0], &distinct());
}

#[test]
fn comments_between_messages(rt: HostRuntime) {
    let file =
        b"\x04\0\x02\0\x10\0\x01\0\x01\0\0\0\0\0\0\0\0\0\0\0\x06\0\x02\0\x10\0\x10\0\x01\0\x02\0\0\0\0\0\0\0\0\0\0\0\x05\0\x02\0\x01";
    let mut table = [FILLER; 3];
    reads(&rt, file, &mut table, 2);
    same(
        &rt,
        &table[0],
        &Message {
            round: 1,
            ..Message::default()
        },
    );
    same(
        &rt,
        &table[1],
        &Message {
            round: 2,
            ..Message::default()
        },
    );
    same(&rt, &table[2], &FILLER);
}
