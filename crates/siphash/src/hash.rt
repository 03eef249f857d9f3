ghost use Rattle.std.specs.Prelude.{◌≡◌, ◌+◌, ◌*◌, ◌%◌, ◌^◌, ◌<◌, length};
ghost use Rattle.little_endian.specs.Bytes.{number};
ghost use Rattle.siphash.specs.SipHash.{siphash_2_4};

use crate::state::{Key, State};
use little_endian::read_u64;

/// The tag of a message.
#[tactic(auto, using(crate::proofs::WordLaws::tag_split))]
pub fn siphash(key: &Key, message: &[u8]) -> u64
    ensures { result ≡ siphash_2_4 key.now message.now }
{
    let (words, rest) = message.as_chunks::<8>();
    // Read before the words are taken in, which was measured to be faster.
    let last = last_word(rest, message.len());
    words
        .iter()
        .copied()
        .map(u64::from_le_bytes)
        .fold(State::new(key), State::absorb)
        .absorb(last)
        .finish()
}

// The bytes left over, and the lowest byte of the message's length on top.
#[tactic(auto, using(crate::proofs::WordLaws::on_top))]
fn last_word(left: &[u8], size: usize) -> u64
    requires { length left.now < 8 }
    ensures { result ≡ number left.now + size % 256 * 2 ^ 56 }
{
    // A cast, since there is no `From<usize>` for u64.
    read_u64(left) | (size as u64) << 56
}
