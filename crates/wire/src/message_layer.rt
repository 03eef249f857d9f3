ghost use Rattle.std.specs.Prelude.{◌≡◌, ℕ};
ghost use Rattle.wire.specs.Reading.{entry_answer, next_entry, passed, messages_left, taken};

use crate::entries::Entries;
use crate::fault::MessageFault;
use crate::item::{Entry, Record};
use crate::message::Message;
use crate::message_body::MessageBody;
use crate::records::Records;

impl<'a> Entries<'a> {
    pub fn new(file: &'a [u8]) -> Self
        ensures whole_file { result.records.file.now ≡ file.now }
        ensures from_the_start { result.records.offset ≡ 0 }
    {
        Entries {
            records: Records::new(file),
        }
    }

    pub fn offset(&self) -> usize
        ensures { result ≡ self.now.records.offset }
    {
        self.records.offset()
    }

    /// The next record with its message read, or none where no byte is left.
    pub fn next(&mut self) -> Result<Option<Entry<'a>>, MessageFault>
        ensures answer { entry_answer result ≡ next_entry self.old.records }
        ensures moves_on { self.new.records.offset ≡ passed self.old.records result }
        ensures same_file { self.new.records.file.now ≡ self.old.records.file.now }
    {
        // A copy goes ahead, since a reader that refuses stays where it is.
        let mut records = self.records;
        let entry = match records.next()? {
            None => return Ok(None),
            Some(Record::Comment(text)) => Entry::Comment(text),
            Some(Record::Message(body)) => {
                let body = MessageBody::new(body).ok_or(MessageFault::Length {
                    offset: self.records.offset,
                })?;
                Entry::Message(body.message())
            }
        };
        self.records = records;
        Ok(Some(entry))
    }

    // The next message with the offset of its record, past the comments before it.
    pub(crate) fn next_message(&mut self) -> Result<Option<(usize, Message)>, MessageFault>
        ensures { (places : ℕ) → messages_left places self.old.records ≡ taken places result (λ left. messages_left left self.new.records) }
    {
        loop {
            let offset = self.offset();
            match self.next()? {
                None => return Ok(None),
                Some(Entry::Message(message)) => return Ok(Some((offset, message))),
                Some(Entry::Comment(_)) => {}
            }
        }
    }
}
