ghost use Rattle.std.specs.Prelude.{◌≡◌, length, IsOk};
ghost use Rattle.wire.specs.Laws.{WrittenIsRead, ReadIsWritten, FirstFault};
ghost use Rattle.wire.specs.Reading.{messages_at, room, reading, file_answer, counted, filled};

use crate::entries::Entries;
use crate::fault::FileFault;
use crate::message::Message;

/// The largest file, in bytes.
pub const MAX_FILE: usize = 32_768;

/// The most messages that a file may have.
pub const MAX_MESSAGES: usize = 128;

// How many messages the file has, once each record of it was looked at; at most `most`.
fn count_messages(file: &[u8], most: usize) -> Result<usize, FileFault>
    ensures { file_answer result ≡ counted 0 (messages_at most 0 file.now) }
{
    let mut entries = Entries::new(file);
    for count in 0..most {
        if entries.next_message()?.is_none() {
            return Ok(count);
        }
    }
    // No place is left.
    match entries.next_message()? {
        None => Ok(most),
        Some((offset, _)) => Err(FileFault::Capacity { offset }),
    }
}

// Puts the messages of a file that has no fault at the table's start.
fn fill(file: &[u8], table: &mut [Message]) -> Result<(), FileFault>
    requires { IsOk (messages_at (room (length table.old)) 0 file.now) }
    ensures no_fault { IsOk result }
    ensures table { table.new ≡ filled table.old (messages_at (room (length table.old)) 0 file.now) }
{
    let mut entries = Entries::new(file);
    for place in table.iter_mut() {
        let Some((_, message)) = entries.next_message()? else {
            break;
        };
        *place = message;
    }
    Ok(())
}

/// Reads the messages of a file into the table's first places, and answers how many there are.
/// The whole file is looked at before the first write, so a refusal leaves the table as it was.
/// The table is the caller's, of any length: nothing is on a heap, and places past the last message stay as they were.
pub fn read_messages(file: &[u8], table: &mut [Message]) -> Result<usize, FileFault>
    ensures answer { file_answer result ≡ counted 0 (reading file.now (length table.old)) }
    ensures table { table.new ≡ filled table.old (reading file.now (length table.old)) }
    ensures written_is_read { WrittenIsRead file.now (length table.old) result table.new }
    ensures read_is_written { ReadIsWritten file.now result table.new }
    ensures first_fault { FirstFault file.now (length table.old) result }
{
    if file.len() > MAX_FILE {
        return Err(FileFault::Capacity { offset: MAX_FILE });
    }
    let count = count_messages(file, table.len().min(MAX_MESSAGES))?;
    fill(file, table)?;
    Ok(count)
}
