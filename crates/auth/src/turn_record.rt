ghost use Rattle.std.specs.Prelude.{◌≡◌, ◌<◌, length};

use crate::roster::MAX_NODES;

// What one node has signed in a turn.
// Not the kit's `ArrayVec<u64, 2>`, which was tried: contracts see no bound on its items, and with an invariant for each list the goals of
// `new` and `sign` stayed open.
#[derive(Clone, Copy)]
pub(crate) enum SignedValues {
    Nothing,
    One(u64),
    Two(u64, u64),
}

// The methods are in `signing`, for the same reason as a roster's are in `rosters`.
// The turn in hand, and what each of the nodes 0 to 15 has signed in it.
#[derive(Drop)]
pub(crate) struct TurnRecord {
    pub(crate) turn: u8,
    // an array, as MAX_NODES says: what is signed at each place
    pub(crate) each: [SignedValues; MAX_NODES],
    ghost eight_bits: { turn < 256 },
    ghost placed: { length each ≡ 16 },
}
