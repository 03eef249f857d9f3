//! SipHash-2-4 as a static library, for programs in other languages.
#![tactic(auto)]

ghost use Rattle.std.specs.Prelude.{◌≡◌};
ghost use Rattle.siphash.specs.SipHash.{siphash_2_4};

use siphash::Key;

/// The tag of a message, under the name that C sees; in C the message is a pointer and a length.
#[unsafe(no_mangle)]
pub extern "C" fn siphash(key: &Key, message: &[u8]) -> u64
    ensures { result ≡ siphash_2_4 key.now message.now }
{
    siphash::siphash(key, message)
}
