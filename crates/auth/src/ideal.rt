ghost use Rattle.std.specs.Prelude.{◌≡◌, ℕ};
ghost use Rattle.auth.specs.Ideal.{flagged, ideal_rule};
ghost use Rattle.auth.specs.IdealFacts.{ideal_lasts};
ghost use Rattle.auth.specs.Recorded.{Begun};
ghost use Rattle.auth.specs.Rosters.{faulty_node};
ghost use Rattle.auth.specs.Signing.{Unforgeable};

use crate::authenticator::Authenticator;
use crate::recording::Recording;
use crate::roster::{MAX_NODES, Roster};
use crate::scheme::{Claim, Scheme};

/// A record of what was signed, which all nodes share and believe: what signatures are meant to be.
pub type IdealAuthenticator = Recording<IdealScheme>;

/// Every tag is 0, and the record decides which are valid, but for the faulty nodes: their firms have the keys and may sign anything at any time.
#[derive(Drop)]
pub struct IdealScheme {
    // an array, as MAX_NODES says: a flag for each place
    faulty: [bool; MAX_NODES],
}

impl Recording<IdealScheme> {
    /// Turn 0 is in hand, and nobody has signed. Under its rule no signature of an honest node can be forged, whatever is signed.
    pub fn new(roster: &Roster) -> IdealAuthenticator
        ensures begun { Begun result.current 0 }
        ensures same_flags { result.scheme.faulty ≡ roster.now.faulty }
        ensures flags_are_the_faulty_nodes { (node : ℕ) → flagged result.scheme.faulty node ≡ faulty_node roster.now node }
        ensures unforgeable { Unforgeable roster.now (⟦<IdealAuthenticator as Authenticator>⟧.rule result) }
    {
        Recording::over(IdealScheme {
            faulty: roster.faulty,
        })
    }
}

impl IdealScheme {
    // Not the roster's `is_faulty`, as the scheme keeps no more of a roster than its flags.
    fn is_faulty(&self, node: u8) -> bool
        ensures { result ≡ flagged self.now.faulty node }
    {
        self.faulty.get(usize::from(node)) == Some(&true)
    }
}

impl Scheme for IdealScheme {
    ghost rule = { λ s. ideal_rule s.faulty };

    ghost lasting = { λ s. ideal_lasts s.faulty };

    fn tag(&self, _claim: Claim) -> u64 {
        0
    }

    fn is_valid(&self, claim: Claim, signed: bool, tag: u64) -> bool {
        tag == 0 && (self.is_faulty(claim.node) || signed)
    }
}
