/// The most signatures that a message has.
pub const MAX_SIGNATURES: usize = 16;

/// A node's signature: the node that is named, and the tag that it is said to have made.
#[derive(Clone, Copy, PartialEq, Eq, Default, Debug)]
pub struct Signature {
    pub signer: u8,
    pub tag: u64,
}

/// A value on its way from one node to another in a round, with the signatures that it has gathered.
/// The first `count` signatures are the message's chain; a count above 16 means 16, and what stands past the count says nothing.
/// The array has its greatest length in every message and a count stands beside it, since memory is fixed, and kept counts above 16 are allowed.
/// There is no PartialEq: two messages that say the same may differ past their count.
#[derive(Clone, Copy, Default, Debug)]
pub struct Message {
    pub round: u8,
    pub sender: u8,
    pub receiver: u8,
    pub count: u8,
    pub value: u64,
    pub signatures: [Signature; MAX_SIGNATURES],
}
