use crate::samples::{FILLER, refuses};
use std::process::Abort;
use wire::Layer;

fn record(rt: &impl Abort, file: &[u8], number: u8, offset: usize) {
    refuses(rt, file, &mut [FILLER; 2], number, offset, Layer::Record);
}

fn message(rt: &impl Abort, file: &[u8], offset: usize) {
    refuses(rt, file, &mut [FILLER; 2], 3, offset, Layer::Message);
}

#[test]
fn a_header_that_is_cut(rt: HostRuntime) {
    record(&rt, &[16], 1, 0);
    record(&rt, &[16, 0], 1, 0);
    record(&rt, &[16, 0, 1], 1, 0);
    record(&rt, &[4, 0, 2, 0, 4], 1, 4);
    record(&rt, &[4, 0, 2, 0, 4, 0, 2], 1, 4);
}

#[test]
fn a_length_that_is_too_small_or_passes_the_end(rt: HostRuntime) {
    record(&rt, &[0, 0, 2, 0], 1, 0);
    record(&rt, &[3, 0, 2, 0], 1, 0);
    record(&rt, &[5, 0, 2, 0], 1, 0);
    // the low byte comes first: 1,024
    record(&rt, &[0, 4, 2, 0], 1, 0);
    record(&rt, &[5, 0, 2, 0, 7, 3, 0, 2, 0], 1, 5);
    // more than what is left, and less than the whole file
    record(&rt, &[5, 0, 2, 0, 7, 5, 0, 2, 0], 1, 5);
}

#[test]
fn a_kind_that_is_unknown(rt: HostRuntime) {
    record(&rt, &[4, 0, 0, 0], 2, 0);
    record(&rt, &[4, 0, 3, 0], 2, 0);
    // 257, 512 and 256
    record(&rt, &[4, 0, 1, 1], 2, 0);
    record(&rt, &[4, 0, 0, 2], 2, 0);
    record(&rt, &[4, 0, 0, 1], 2, 0);
    record(&rt, &[6, 0, 2, 0, 7, 8, 4, 0, 3, 0], 2, 6);
}

#[test]
fn a_message_of_another_length(rt: HostRuntime) {
    message(&rt, &[4, 0, 1, 0], 0);
    message(&rt, &[15, 0, 1, 0, 0, 0, 0, 0, 0, 0, 0, 0, 0, 0, 0], 0);
    message(
        &rt,
        &[17, 0, 1, 0, 0, 0, 0, 0, 0, 0, 0, 0, 0, 0, 0, 0, 0],
        0,
    );
    message(
        &rt,
        &[4, 0, 2, 0, 16, 0, 1, 0, 0, 0, 0, 1, 0, 0, 0, 0, 0, 0, 0, 0],
        4,
    );
}

#[test]
fn a_byte_less_or_more_than_the_signatures_take(rt: HostRuntime) {
    let mut less = [0; 24];
    less[0] = 24;
    less[2] = 1;
    less[7] = 1;
    message(&rt, &less, 0);
    let mut more = [0; 26];
    more[0] = 26;
    more[2] = 1;
    more[7] = 1;
    message(&rt, &more, 0);
}

#[test]
fn seventeen_signatures(rt: HostRuntime) {
    let mut file = [0; 169];
    file[0] = 169;
    file[2] = 1;
    file[7] = 17;
    message(&rt, &file, 0);
}

#[test]
fn the_length_is_looked_at_before_the_kind_and_the_message(rt: HostRuntime) {
    record(&rt, &[3, 0, 9, 0], 1, 0);
    record(&rt, &[5, 0, 9, 0], 1, 0);
    record(&rt, &[5, 0, 1, 0], 1, 0);
    record(&rt, &[15, 0, 3, 0, 0, 0, 0, 0, 0, 0, 0, 0, 0, 0, 0], 2, 0);
}

#[test]
fn the_first_record_at_fault_is_told(rt: HostRuntime) {
    record(&rt, &[4, 0, 3, 0, 3, 0, 2, 0], 2, 0);
    record(&rt, &[4, 0, 2, 0, 4, 0, 3, 0, 4, 0, 1, 0], 2, 4);
    message(&rt, &[4, 0, 1, 0, 4, 0, 3, 0], 0);
}
