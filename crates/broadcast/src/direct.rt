ghost use Rattle.std.specs.Prelude.{◌≡◌};
ghost use Rattle.auth.specs.Rosters.{honest};
ghost use Rattle.broadcast.specs.Direct.{from_leader, first_value, direct_outcome, direct_outcomes};
ghost use Rattle.broadcast.specs.DirectFacts;
ghost use Rattle.broadcast.specs.Instances.{given};

use crate::broadcast::Broadcast;
use crate::delivery::is_delivered;
use crate::turn::Turn;
use auth::MAX_NODES;
use std::array;
use wire::Message;

/// Each node takes the first value that the leader sends it.
/// Nothing is signed or relayed, so a faulty leader may send each another value.
#[derive(Clone, Copy)]
pub struct DirectBroadcast;

impl Broadcast for DirectBroadcast {
    ghost outcomes = { λ _ i. direct_outcomes i };

    ghost condition = { λ _ i. honest i.turn.roster i.turn.leader };

    ghost leaves = { λ b _ after. after ≡ b };

    ghost places = { λ _ i. DirectFacts.places i };

    ghost blank = { λ _ i. DirectFacts.blank i };

    ghost leaderless = { λ _ i. DirectFacts.leaderless i };

    ghost agreement = { λ _ i. DirectFacts.agreed i };

    ghost validity = { λ _ i led _. DirectFacts.valid i led };

    fn broadcast(&mut self, turn: &Turn, messages: &[Message]) -> [u64; MAX_NODES] {
        // A cast of at most 15: `try_from` would only add a fault that cannot happen.
        array::from_fn(|node| turn.direct_outcome(node as u8, messages))
    }
}

impl Turn {
    // The value that a node ends with; a faulty node and a place without a node have 0.
    fn direct_outcome(&self, node: u8, messages: &[Message]) -> u64
        ensures { result ≡ direct_outcome (given self.now messages.now) node }
    {
        if !self.roster.is_honest(node) {
            0
        } else if self.roster.is_honest(self.leader) {
            self.proposal
        } else {
            self.first_value(node, messages)
        }
    }

    // The value of the first message from the leader to the node, or 0.
    fn first_value(&self, node: u8, messages: &[Message]) -> u64
        ensures { result ≡ first_value (given self.now messages.now) node }
    {
        messages
            .iter()
            .find(|message| self.is_from_leader(node, message))
            .map_or(0, |message| message.value)
    }

    // Whether the message is of round 0 and arrives at the node from the leader.
    fn is_from_leader(&self, node: u8, message: &Message) -> bool
        ensures { result ≡ from_leader self.now node message.now }
    {
        message.round == 0
            && message.sender == self.leader
            && message.receiver == node
            && is_delivered(&self.roster, message)
    }
}
