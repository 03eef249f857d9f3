use crate::samples::{FILLER, put_messages, reads, refuses, same, unchanged};
use wire::{Layer, MAX_FILE, MAX_MESSAGES, Message};

#[test]
fn the_limits(rt: HostRuntime) {
    assert_eq!(rt; MAX_FILE, 32_768);
    assert_eq!(rt; MAX_MESSAGES, 128);
}

#[test]
fn at_most_128_messages(rt: HostRuntime) {
    let mut file = [0; 2064];
    put_messages(&mut file);
    let mut table = [FILLER; 129];
    refuses(&rt, &file, &mut table, 4, 2048, Layer::File);
    // the ranges name their start, since the check finds no proof at ..2048
    reads(&rt, &file[0..2048], &mut table, 128);
    for (i, message) in table[0..128].iter().enumerate() {
        same(
            &rt,
            message,
            &Message {
                round: i as u8,
                ..Message::default()
            },
        );
    }
    same(&rt, &table[128], &FILLER);
}

#[test]
fn a_message_more_than_the_table_holds(rt: HostRuntime) {
    let mut file = [0; 48];
    put_messages(&mut file);
    refuses(&rt, &file, &mut [FILLER; 2], 4, 32, Layer::File);
    refuses(&rt, &file, &mut [], 4, 0, Layer::File);
    // a comment takes no place
    file[34] = 2;
    reads(&rt, &file, &mut [FILLER; 2], 2);
}

#[test]
fn a_fault_behind_the_last_place_is_told_as_it_is(rt: HostRuntime) {
    let mut file = [0; 48];
    put_messages(&mut file);
    // the third message would have no place, and is no message
    file[39] = 1;
    refuses(&rt, &file, &mut [FILLER; 2], 3, 32, Layer::Message);
    // the second has no place, and comes before the third
    refuses(&rt, &file, &mut [FILLER; 1], 4, 16, Layer::File);
}

#[test]
fn the_largest_file(rt: HostRuntime) {
    let mut file = [0; 32_768];
    let mut table = [FILLER; 1];
    refuses(&rt, &file, &mut table, 1, 0, Layer::Record);
    // one comment of 32,768 bytes
    file[1] = 128;
    file[2] = 2;
    reads(&rt, &file, &mut table, 0);
    unchanged(&rt, &table);
}

#[test]
fn a_byte_more_is_refused_before_all_else(rt: HostRuntime) {
    let mut file = [0; 32_769];
    refuses(&rt, &file, &mut [FILLER; 1], 4, 32_768, Layer::File);
    file[0] = 1;
    file[1] = 128;
    file[2] = 2;
    refuses(&rt, &file, &mut [FILLER; 1], 4, 32_768, Layer::File);
}
