ghost use Rattle.std.specs.Prelude.{◌≡◌, ℕ, ◌<◌, ◌≤◌, true, List, length, IfOk, OnErr};
ghost use Rattle.auth.specs.Signing.{Rule, Lasting, signed_by, none_signed, after_signing, sign_answer, signing};

use crate::fault::SignFault;

/// Signs values for the nodes and verifies signatures. Within a turn a node signs at most two values.
/// Node and value are handed in one by one: what a tag is for has the turn too, which the authenticator alone knows.
pub trait Authenticator {
    // the turn in hand
    ghost turn: { Self → ℕ };

    // for each of the nodes 0 to 15 the values that it has signed in that turn, in order
    ghost signed: { Self → List (List ℕ) };

    // which tags are valid; turn and lists alone decide it
    ghost rule: { Self → Rule };

    /// Takes a turn in hand, in which nobody has signed yet.
    fn begin(&mut self, number: u8)
        ensures turn_in_hand { turn self.new ≡ number }
        ensures nothing_signed { signed self.new ≡ none_signed }
        ensures same_rule { rule self.new ≡ rule self.old };

    /// Signs for a node, and answers its tag.
    fn sign(&mut self, node: u8, value: u64) -> Result<u64, SignFault>
        ensures answer { sign_answer result ≡ signing (signed self.old) node value }
        ensures tag_is_valid { IfOk result (λ tag. rule self.new (turn self.new) (signed self.new) node value tag ≡ true) }
        ensures value_joins_the_list { signed self.new ≡ after_signing (signed self.old) node value }
        ensures same_turn { turn self.new ≡ turn self.old }
        ensures same_rule { rule self.new ≡ rule self.old }
        ensures refused_unchanged { OnErr result (self.new ≡ self.old) };

    /// Whether the tag is valid for the node and the value.
    fn verify(&self, node: u8, value: u64, tag: u64) -> bool
        ensures { result ≡ rule self.now (turn self.now) (signed self.now) node value tag };

    // a turn has 8 bits
    ghost eight_bits: { (a : Self) → turn a < 256 };

    // sixteen lists
    ghost places: { (a : Self) → length (signed a) ≡ 16 };

    // of at most two values each
    ghost at_most_two: { (a : Self) (node : ℕ) → length (signed_by (signed a) node) ≤ 2 };

    // a valid tag stays valid, whatever is signed next
    ghost lasting: { (a : Self) → Lasting (rule a) };
}
