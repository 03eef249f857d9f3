ghost use Rattle.std.specs.Prelude.{◌≡◌};
ghost use Rattle.auth.specs.RecordFacts.{length-lists, few_are_signed};
ghost use Rattle.auth.specs.Recorded.{Begun, lists};

use crate::authenticator::Authenticator;
use crate::fault::SignFault;
use crate::scheme::{Claim, Scheme};
use crate::turn_record::TurnRecord;

/// An authenticator over any scheme: it keeps a record of what the nodes have signed in the turn in hand.
#[derive(Drop)]
pub struct Recording<S> {
    pub(crate) scheme: S,
    pub(crate) current: TurnRecord,
}

impl<S> Recording<S> {
    // Turn 0 is in hand, and nobody has signed.
    pub(crate) fn over(scheme: S) -> Recording<S>
        ensures begun { Begun result.current 0 }
        ensures same_scheme { result.scheme ≡ scheme }
    {
        Recording {
            scheme,
            current: TurnRecord::new(0),
        }
    }
}

impl<S: Scheme> Authenticator for Recording<S> {
    ghost turn = { λ a. a.current.turn };

    ghost signed = { λ a. lists a.current };

    ghost rule = { λ a. S.rule a.scheme };

    ghost eight_bits = { λ a. a.current.eight_bits };

    ghost places = { λ a. length-lists a.current };

    ghost at_most_two = { λ a. few_are_signed a.current };

    ghost lasting = { λ a. S.lasting a.scheme };

    fn begin(&mut self, number: u8) {
        self.current = TurnRecord::new(number);
    }

    fn sign(&mut self, node: u8, value: u64) -> Result<u64, SignFault> {
        self.current.sign(node, value)?;
        let turn = self.current.turn;
        Ok(self.scheme.tag(Claim { turn, node, value }))
    }

    fn verify(&self, node: u8, value: u64, tag: u64) -> bool {
        let signed = self.current.has_signed(node, value);
        let turn = self.current.turn;
        self.scheme
            .is_valid(Claim { turn, node, value }, signed, tag)
    }
}
