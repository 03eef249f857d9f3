//! Numbers as bytes, the lowest byte first.
#![tactic(auto)]

ghost use Rattle.std.specs.Prelude.{◌≡◌, ◌<◌, length, take};
ghost use Rattle.little_endian.specs.Bytes.{number};

/// The number that the first eight bytes write. Of fewer bytes, the number that they write.
pub fn read_u64(bytes: &[u8]) -> u64
    ensures { result ≡ number (take 8 bytes.now) }
{
    let Some(eight) = bytes.first_chunk::<8>() else {
        return read_few(bytes);
    };
    u64::from_le_bytes(*eight)
}

// Begins with the last byte, which is the highest. Each byte shifts up what was read before it.
#[tactic(auto, using(crate::proofs::ByteLaws::number_turns))]
fn read_few(bytes: &[u8]) -> u64
    requires { length bytes.now < 8 }
    ensures { result ≡ number bytes.now }
{
    bytes
        .iter()
        .rev()
        .fold(0, |number, &byte| number << 8 | u64::from(byte))
}
