use crate::message::Message;

/// One record of a message file. A comment is a part of the file.
#[derive(Clone, Copy, PartialEq, Eq, Debug)]
pub enum Item<'a, M> {
    Message(M),
    Comment(&'a [u8]),
}

/// A record with the bytes of its message, which are a part of the file.
pub type Record<'a> = Item<'a, &'a [u8]>;

/// A record with its message read.
pub type Entry<'a> = Item<'a, Message>;
