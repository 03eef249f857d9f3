use crate::records::Records;

/// A reader of the records of a file, which also reads the messages in them.
/// It is no Iterator, for the reason that Records is none. The two share no body: the one takes a record apart, the other a message.
#[derive(Clone, Copy)]
pub struct Entries<'a> {
    pub(crate) records: Records<'a>,
}
