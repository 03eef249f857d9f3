use crate::samples::same;
use std::test::Fail;
use wire::{
    Entries, Entry, FileFault, Layer, Message, MessageFault, Numbered, Record, RecordFault,
    Records, Refusal,
};

// A comment, a message without its body, a kind that is unknown.
const FILE: [u8; 14] = [6, 0, 2, 0, 7, 8, 4, 0, 1, 0, 4, 0, 3, 0];

// What the comment holds.
const TEXT: &[u8] = &[7, 8];

// What the message holds.
const BODY: &[u8] = &[];

#[test]
fn records_one_after_the_other(rt: HostRuntime) {
    let file = FILE;
    let mut records = Records::new(&file);
    assert_eq!(rt; records.offset(), 0);
    assert_eq!(rt; records.next(), Ok(Some(Record::Comment(TEXT))));
    assert_eq!(rt; records.offset(), 6);
    assert_eq!(rt; records.next(), Ok(Some(Record::Message(BODY))));
    assert_eq!(rt; records.offset(), 10);
    // a reader that refuses stays where it is
    let fault = RecordFault::Kind { offset: 10 };
    assert_eq!(rt; fault.number(), 2);
    for _ in 0..2 {
        assert_eq!(rt; records.next(), Err(fault));
        assert_eq!(rt; records.offset(), 10);
    }
    assert_eq!(rt;
        Refusal::from(fault),
        Refusal {
            number: 2,
            offset: 10,
            layer: Layer::Record,
        }
    );
}

#[test]
fn entries_stop_at_the_first_fault(rt: HostRuntime) -> Result<(), Fail> {
    let file = FILE;
    let mut entries = Entries::new(&file);
    assert_eq!(rt; entries.offset(), 0);
    match entries.next() {
        Ok(Some(Entry::Comment(text))) => assert_eq!(rt; text, TEXT),
        _ => return Err(Fail::new("no comment")),
    }
    let fault = MessageFault::Length { offset: 6 };
    assert_eq!(rt; fault.number(), 3);
    for _ in 0..2 {
        assert_eq!(rt; entries.offset(), 6);
        assert_eq!(rt; entries.next().err(), Some(fault));
    }
    assert_eq!(rt; entries.offset(), 6);
    assert_eq!(rt;
        Refusal::from(fault),
        Refusal {
            number: 3,
            offset: 6,
            layer: Layer::Message,
        }
    );
    Ok(())
}

#[test]
fn entries_up_to_the_end(rt: HostRuntime) -> Result<(), Fail> {
    let file = [16, 0, 1, 0, 1, 2, 3, 0, 4, 0, 0, 0, 0, 0, 0, 0];
    let mut entries = Entries::new(&file);
    match entries.next() {
        Ok(Some(Entry::Message(message))) => same(
            &rt,
            &message,
            &Message {
                round: 1,
                sender: 2,
                receiver: 3,
                value: 4,
                ..Message::default()
            },
        ),
        _ => return Err(Fail::new("no message")),
    }
    for _ in 0..2 {
        assert_eq!(rt; entries.offset(), 16);
        match entries.next() {
            Ok(None) => {}
            _ => return Err(Fail::new("an entry past the end")),
        }
    }
    Ok(())
}

#[test]
fn a_refusal_as_it_is_printed(rt: HostRuntime) -> Result<(), Fail> {
    let fault = FileFault::Capacity { offset: 2048 };
    assert_eq!(rt; fault.number(), 4);
    let refusal = Refusal::from(fault);
    let text = format!(in rt.alloc(); "{refusal}")?;
    assert_eq!(rt; text.as_str(), "refused 4 at 2048");
    Ok(())
}
