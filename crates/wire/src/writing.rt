ghost use Rattle.std.specs.Prelude.{◌≡◌, ◌+◌, ◌*◌, ◌≤◌, length};
ghost use Rattle.std.proofs.Math.Seq.{paste};
ghost use Rattle.std.specs.List.{flat_map};
ghost use Rattle.wire.specs.Format.{signature_bytes};
ghost use Rattle.wire.specs.Laws.{ReadBack};
ghost use Rattle.wire.specs.Writing.{write_answer, writing, written};

use crate::fault::ShortBuffer;
use crate::kind::Kind;
use crate::layout::{SIGNATURE, UNSIGNED};
use crate::message::{Message, Signature};

// Puts bytes into a buffer, one after the other.
// It is no writer of std: std's Write for a slice answers errors, which cannot happen here.
#[derive(Drop)]
struct Writer<'a> {
    buffer: &'a mut [u8],
    written: usize,
}

impl Writer<'_> {
    fn put(&mut self, bytes: &[u8])
        requires { self.old.written + length bytes.now ≤ length self.old.buffer.now }
        ensures buffer { self.new.buffer.now ≡ paste self.old.buffer.now self.old.written bytes.now (length bytes.now) }
        ensures written { self.new.written ≡ self.old.written + length bytes.now }
        ensures same_buffer { self.new.buffer.ghost_name ≡ self.old.buffer.ghost_name }
    {
        let end = self.written + bytes.len();
        self.buffer[self.written..end].copy_from_slice(bytes);
        self.written = end;
    }

    fn put_signature(&mut self, signature: &Signature)
        requires { self.old.written + 9 ≤ length self.old.buffer.now }
        ensures buffer { self.new.buffer.now ≡ paste self.old.buffer.now self.old.written (signature_bytes signature.now) 9 }
        ensures written { self.new.written ≡ self.old.written + 9 }
        ensures same_buffer { self.new.buffer.ghost_name ≡ self.old.buffer.ghost_name }
    {
        self.put(&[signature.signer]);
        self.put(&signature.tag.to_le_bytes());
    }
}

/// Writes one message at the buffer's start, and answers how many bytes it took. The buffer is the caller's, since memory is fixed.
pub fn write_message(message: &Message, buffer: &mut [u8]) -> Result<usize, ShortBuffer>
    ensures answer { write_answer result ≡ writing message.now buffer.old }
    ensures buffer { buffer.new ≡ written message.now buffer.old }
    ensures read_back { ReadBack message.now result buffer.new }
{
    let chain = message.chain();
    let length = UNSIGNED + SIGNATURE * chain.len();
    if buffer.len() < length {
        return Err(ShortBuffer { needed: length });
    }
    let mut writer = Writer { buffer, written: 0 };
    // Casts of at most 160 and 16: `try_from` would only add a fault that cannot happen.
    writer.put(&(length as u16).to_le_bytes());
    writer.put(&(Kind::Message as u16).to_le_bytes());
    writer.put(&[
        message.round,
        message.sender,
        message.receiver,
        chain.len() as u8,
    ]);
    writer.put(&message.value.to_le_bytes());
    for signature in chain {
        writer.put_signature(signature);
    }
    Ok(length)
}
