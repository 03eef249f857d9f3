ghost use Rattle.std.specs.Prelude.{◌≡◌, OnErr};
ghost use Rattle.std.specs.Option.{option_map};
ghost use Rattle.auth.specs.Lists.{has};
ghost use Rattle.auth.specs.Signing.{signed_by, after_signing, sign_answer, signing};
ghost use Rattle.auth.specs.Recorded.{Begun, values, lists, joined};

use crate::fault::SignFault;
use crate::roster::MAX_NODES;
use crate::turn_record::{SignedValues, TurnRecord};

impl SignedValues {
    fn has(self, value: u64) -> bool
        ensures { result ≡ has (values self) value }
    {
        match self {
            SignedValues::Nothing => false,
            SignedValues::One(first) => first == value,
            SignedValues::Two(first, second) => first == value || second == value,
        }
    }

    // The same with one value more, unless it is there; none where two others are.
    fn with(self, value: u64) -> Option<SignedValues>
        ensures { option_map values result ≡ joined (values self) value }
    {
        if self.has(value) {
            return Some(self);
        }
        match self {
            SignedValues::Nothing => Some(SignedValues::One(value)),
            SignedValues::One(first) => Some(SignedValues::Two(first, value)),
            SignedValues::Two(_, _) => None,
        }
    }
}

impl TurnRecord {
    // A turn in which nobody has signed.
    #[tactic(auto, unfolding(crate::specs::Tables::table))]
    pub(crate) fn new(turn: u8) -> TurnRecord
        ensures { Begun result turn }
    {
        TurnRecord {
            turn,
            each: [SignedValues::Nothing; MAX_NODES],
        }
    }

    pub(crate) fn has_signed(&self, node: u8, value: u64) -> bool
        ensures { result ≡ has (signed_by (lists self.now) node) value }
    {
        self.each
            .get(usize::from(node))
            .is_some_and(|values| values.has(value))
    }

    // The node signs the value, if it may.
    pub(crate) fn sign(&mut self, node: u8, value: u64) -> Result<(), SignFault>
        ensures answer { sign_answer result ≡ signing (lists self.old) node value }
        ensures value_joins_the_list { lists self.new ≡ after_signing (lists self.old) node value }
        ensures same_turn { self.new.turn ≡ self.old.turn }
        ensures refused_unchanged { OnErr result (self.new ≡ self.old) }
    {
        let place = usize::from(node);
        let values = self
            .each
            .get(place)
            .and_then(|values| values.with(value))
            .ok_or(SignFault::NotAllowed)?;
        self.each[place] = values;
        Ok(())
    }
}
