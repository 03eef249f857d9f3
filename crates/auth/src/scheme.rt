ghost use Rattle.std.specs.Prelude.{◌≡◌, ℕ, ◌<◌, true, List};
ghost use Rattle.auth.specs.Lists.{has};
ghost use Rattle.auth.specs.Signing.{Rule, Lasting, signed_by};

// That a node says a value in a turn: what a tag is for.
#[derive(Clone, Copy)]
pub(crate) struct Claim {
    pub(crate) turn: u8,
    pub(crate) node: u8,
    pub(crate) value: u64,
}

// How tags are made, and which are valid. A scheme keeps no record of what was signed: it is told what it has to know of it.
pub(crate) trait Scheme {
    // which tags are valid; turn and lists alone decide it
    ghost rule: { Self → Rule };

    // The tag of a claim whose value the node has signed.
    fn tag(&self, claim: Claim) -> u64
        requires { claim.node < 16 }
        ensures { (lists : List (List ℕ)) → has (signed_by lists claim.node) claim.value ≡ true → rule self.now claim.turn lists claim.node claim.value result ≡ true };

    // Whether the tag is valid for the claim, whose value the node has `signed` or not.
    fn is_valid(&self, claim: Claim, signed: bool, tag: u64) -> bool
        ensures { (lists : List (List ℕ)) → has (signed_by lists claim.node) claim.value ≡ signed → result ≡ rule self.now claim.turn lists claim.node claim.value tag };

    // a valid tag stays valid, whatever is signed next
    ghost lasting: { (scheme : Self) → Lasting (rule scheme) };
}
