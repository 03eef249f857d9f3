ghost use Rattle.std.specs.Prelude.{◌≡◌, ◌-◌, true, false, ◌++◌, drop, map, replicate, slice_index, slice_index_or, MatchOption};
ghost use Rattle.wire.specs.Reading.{blank, signature_from, signatures_from, message_from, well_formed};

use crate::layout::{BODY_HEAD, SIGNATURE};
use crate::message::{MAX_SIGNATURES, Message, Signature};
use little_endian::read_u64;

// The body of a message: at most 16 signatures, and as many bytes as they take.
#[derive(Clone, Copy)]
pub(crate) struct MessageBody<'a> {
    bytes: &'a [u8],
    ghost well_formed: { well_formed bytes.now ≡ true },
}

impl<'a> MessageBody<'a> {
    pub(crate) fn new(bytes: &'a [u8]) -> Option<Self>
        ensures { MatchOption result (well_formed bytes.now ≡ false) (λ body. body.bytes.now ≡ bytes.now) }
    {
        let count = usize::from(*bytes.get(3)?);
        if count > MAX_SIGNATURES || bytes.len() != BODY_HEAD + SIGNATURE * count {
            return None;
        }
        Some(MessageBody { bytes })
    }

    // The message that the body writes. A method and no From: the type is private, and the call would be no plainer.
    pub(crate) fn message(self) -> Message
        ensures { result ≡ message_from self.entry.bytes.now }
    {
        Message {
            round: self.bytes[0],
            sender: self.bytes[1],
            receiver: self.bytes[2],
            count: self.bytes[3],
            value: read_u64(&self.bytes[4..]),
            signatures: self.signatures(),
        }
    }

    // The signatures, and blanks after them. The array is filled and not made by `from_fn`, with which reading was measured to take several times as long.
    fn signatures(self) -> [Signature; MAX_SIGNATURES]
        ensures { let count = slice_index self.entry.bytes.now 3 in result ≡ signatures_from count (drop 12 self.entry.bytes.now) ++ replicate (16 - count) blank }
    {
        let (chunks, _) = self.bytes[BODY_HEAD..].as_chunks::<SIGNATURE>();
        let mut signatures = [Signature::default(); MAX_SIGNATURES];
        for (place, chunk) in chunks.iter().enumerate() {
            signatures[place] = signature_in(chunk);
        }
        signatures
    }
}

// The signature that these bytes write. A public impl of From would serve a private need.
fn signature_in(bytes: &[u8; SIGNATURE]) -> Signature
    ensures { result ≡ signature_from bytes.now }
{
    Signature {
        signer: bytes[0],
        tag: read_u64(&bytes[1..]),
    }
}
