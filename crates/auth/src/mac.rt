ghost use Rattle.std.specs.Prelude.{◌≡◌, ◌<◌};
ghost use Rattle.auth.specs.Mac.{mac, mac_rule};
ghost use Rattle.auth.specs.Recorded.{Begun};

use crate::recording::Recording;
use crate::roster::MAX_NODES;
use crate::scheme::{Claim, Scheme};
use siphash::{Key, siphash};

/// An authenticator whose tags are SipHash-2-4 over turn and value, under the signer's key.
pub type MacAuthenticator = Recording<MacScheme>;

/// A secret key for each of the nodes 0 to 15.
#[derive(Drop)]
pub struct MacScheme {
    // an array, as MAX_NODES says: a key for each place
    keys: [Key; MAX_NODES],
}

impl Recording<MacScheme> {
    /// Turn 0 is in hand, and nobody has signed.
    pub fn new(keys: &[Key; MAX_NODES]) -> MacAuthenticator
        ensures begun { Begun result.current 0 }
        ensures same_keys { result.scheme.keys ≡ keys.now }
    {
        Recording::over(MacScheme { keys: *keys })
    }
}

impl Scheme for MacScheme {
    ghost rule = { λ s. mac_rule s.keys };

    ghost lasting = { λ s turn lists node value tag valid signer other. valid };

    fn tag(&self, claim: Claim) -> u64
        requires { claim.node < 16 }
        ensures { result ≡ mac self.now.keys claim.turn claim.node claim.value }
    {
        // Named one by one, so that no part of an array has to be written.
        let [b0, b1, b2, b3, b4, b5, b6, b7] = claim.value.to_le_bytes();
        let signed = [claim.turn, b0, b1, b2, b3, b4, b5, b6, b7];
        siphash(&self.keys[usize::from(claim.node)], &signed)
    }

    fn is_valid(&self, claim: Claim, _signed: bool, tag: u64) -> bool {
        usize::from(claim.node) < MAX_NODES && self.tag(claim) == tag
    }
}
