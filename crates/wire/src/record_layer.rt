ghost use Rattle.std.specs.Prelude.{◌≡◌};
ghost use Rattle.wire.specs.Reading.{record_answer, next_record, passed};

use crate::fault::RecordFault;
use crate::item::Record;
use crate::kind::Kind;
use crate::layout::HEADER;
use crate::records::Records;

impl<'a> Records<'a> {
    pub fn new(file: &'a [u8]) -> Self
        ensures whole_file { result.file.now ≡ file.now }
        ensures from_the_start { result.offset ≡ 0 }
    {
        Records { file, offset: 0 }
    }

    pub fn offset(&self) -> usize
        ensures { result ≡ self.now.offset }
    {
        self.offset
    }

    /// The next record, or none where no byte is left. A reader that refuses stays where it is.
    pub fn next(&mut self) -> Result<Option<Record<'a>>, RecordFault>
        ensures answer { record_answer result ≡ next_record self.old }
        ensures moves_on { self.new.offset ≡ passed self.old result }
        ensures same_file { self.new.file.now ≡ self.old.file.now }
    {
        let file = self.file;
        let offset = self.offset;
        if offset >= file.len() {
            return Ok(None);
        }
        let left = &file[offset..];
        let (pairs, _) = left.as_chunks::<2>();
        let [length, kind, ..] = pairs else {
            return Err(RecordFault::Length { offset });
        };
        let length = usize::from(u16::from_le_bytes(*length));
        if length < HEADER || length > left.len() {
            return Err(RecordFault::Length { offset });
        }
        let body = &left[HEADER..length];
        // Not map_err and a question mark: the closure makes the proof longer and the code no plainer.
        let Ok(kind) = Kind::try_from(u16::from_le_bytes(*kind)) else {
            return Err(RecordFault::Kind { offset });
        };
        let record = match kind {
            Kind::Message => Record::Message(body),
            Kind::Comment => Record::Comment(body),
        };
        self.offset = offset + length;
        Ok(Some(record))
    }
}
