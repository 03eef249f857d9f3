ghost use Rattle.std.specs.Prelude.{◌≡◌, ℕ, ◌≤◌, Bool, true, false, List, length, slice_index};
ghost use Rattle.auth.specs.Rosters.{honest};
ghost use Rattle.broadcast.specs.Instances.{Instance, given};

use crate::turn::Turn;
use auth::MAX_NODES;
use wire::Message;

/// A protocol that brings the leader's proposal to the nodes, whatever the faulty ones send. It never refuses.
/// Its state and the instance fix the outcomes and the condition.
pub trait Broadcast {
    // the value that each of the sixteen places ends with
    ghost outcomes: { Self → Instance → List ℕ };

    // whether the honest nodes are sure to agree
    ghost condition: { Self → Instance → Bool };

    // what the instance may leave of the state
    ghost leaves: { Self → Instance → Self → Type 0 };

    // The outcomes are an array, as MAX_NODES says: one for each place.
    fn broadcast(&mut self, turn: &Turn, messages: &[Message]) -> [u64; MAX_NODES]
        ensures answer { result ≡ outcomes self.old (given turn.now messages.now) }
        ensures after { leaves self.old (given turn.now messages.now) self.new };

    // sixteen outcomes
    ghost places: { (b : Self) (i : Instance) → length (outcomes b i) ≡ 16 };

    // 0 where no honest node is
    ghost blank: { (b : Self) (i : Instance) (node : ℕ) → honest i.turn.roster node ≡ false → slice_index (outcomes b i) node ≡ 0 };

    // 0 everywhere for a leader that is no node
    ghost leaderless: { (b : Self) (i : Instance) → i.turn.roster.nodes ≤ i.turn.leader → (node : ℕ) → slice_index (outcomes b i) node ≡ 0 };

    // under the condition one outcome for all honest nodes
    ghost agreement: { (b : Self) (i : Instance) → condition b i ≡ true → (first second : ℕ) → honest i.turn.roster first ≡ true → honest i.turn.roster second ≡ true → slice_index (outcomes b i) first ≡ slice_index (outcomes b i) second };

    // and with an honest leader it is the proposal
    ghost validity: { (b : Self) (i : Instance) → condition b i ≡ true → honest i.turn.roster i.turn.leader ≡ true → (node : ℕ) → honest i.turn.roster node ≡ true → slice_index (outcomes b i) node ≡ i.turn.proposal };
}
