// How many bytes the parts of a record take.

// A record's length and its kind.
pub(crate) const HEADER: usize = 4;

// What stands before the signatures in the body of a message.
pub(crate) const BODY_HEAD: usize = 12;

// One signature.
pub(crate) const SIGNATURE: usize = 9;

// A message's whole record without its signatures.
pub(crate) const UNSIGNED: usize = HEADER + BODY_HEAD;
